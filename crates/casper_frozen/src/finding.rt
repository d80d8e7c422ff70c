ghost use Rattle.std.specs.Prelude.{◌≡◌};
ghost use Rattle.casper_frozen.specs.Bridge.{IsStabilisationOf, IsGatheringOf, IsUnended, Gathers};
ghost use Rattle.casper_frozen.specs.Finding.{gathering_among, frozen_among, is_doubt_among};

use casper_assoc::Associations;
use casper_gather::{Phase, Stab, Unended};
use casper_words::{Crew, Who};

/// The stabilisation that a client is a member of, if there is one. It costs nothing where no stabilisation is unended, and else the
/// 32 clients.
pub fn member_of(unended: &Unended, associations: &Associations, who: Who) -> Option<Stab>
    ensures member { IsStabilisationOf unended.now associations.now who result }
    ensures unended { IsUnended unended.now result }
{
    if unended.each().is_empty() {
        return None;
    }
    let own = associations.members(who);
    unended.led_among(own)
}

/// The stabilisation that a client is a member of and that gathers, if there is one: it awaits pages that members hold for
/// writing. It costs nothing where no stabilisation is unended, and else the 32 clients.
pub fn gathering_of(unended: &Unended, associations: &Associations, who: Who) -> Option<Stab>
    ensures gathering { IsGatheringOf unended.now associations.now who result }
    ensures unended { IsUnended unended.now result }
    ensures gathers { Gathers result }
{
    if unended.each().is_empty() {
        return None;
    }
    let own = associations.members(who);
    gathering_among(unended.each(), own)
}

/// The first one that gathers and whose lead is among these clients.
fn gathering_among(each: &[Stab], members: Crew) -> Option<Stab>
    ensures { result ≡ gathering_among members each.now }
{
    each.iter()
        .find(|one| one.phase == Phase::Gathering && members.has(one.lead))
        .copied()
}

/// The first one that is not in doubt and whose lead is among these clients.
pub(crate) fn frozen_among(each: &[Stab], members: Crew) -> Option<Stab>
    ensures { result ≡ frozen_among members each.now }
{
    each.iter()
        .find(|one| one.phase != Phase::Doubt && members.has(one.lead))
        .copied()
}

/// Whether one is in doubt whose lead is among these clients.
pub(crate) fn is_doubt_among(each: &[Stab], members: Crew) -> bool
    ensures { result ≡ is_doubt_among members each.now }
{
    each.iter()
        .any(|one| one.phase == Phase::Doubt && members.has(one.lead))
}
