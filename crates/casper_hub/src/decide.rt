ghost use Rattle.std.specs.Prelude.{◌≡◌, ◌<◌, ◌≤◌, length, Contains};
ghost use Rattle.casper_words.specs.Crew.{crew_of};
ghost use Rattle.casper_words.specs.declared.page.Want.{Want as AWant};
ghost use Rattle.casper_hub.specs.Shows.{permits as does_permit};
ghost use Rattle.casper_hub.specs.Given.{right_kept as kept_in};
ghost use Rattle.casper_hub.specs.Deciding.{missing_in, is_given as is_given_in, fell as has_fallen, stands_in_the_way, blockers_in, blocked_in, unframed_in, decision_for};

use crate::clients::Clients;
use crate::pages::Pages;
use casper_dir::FewWants;
use casper_words::{Crew, Page, Right, Want, Who};

/// What an acquire comes to.
#[derive(Drop)]
pub(crate) enum Decision {
    /// It is granted, with these wants missing.
    Grant(FewWants),
    /// It would be granted, but this page has to be read first.
    Load(Page),
    /// These clients stand in the way, of these wants.
    Pending(Crew, FewWants),
    /// The trail has too little room for it.
    Full,
}

/// Decides what an acquire comes to. The client will have this cap.
pub(crate) fn decide(
    pages: &Pages,
    clients: &Clients,
    who: Who,
    wants: &[Want],
    calls: u32,
    cap: u32,
) -> Decision
    requires few { length wants.now ≤ 4 }
    requires range { (want : AWant) → Contains wants.now want
        → want.page < length pages.now.rights }
    requires calls { calls ≤ 4096 }
    ensures { result ≡ decision_for pages.now clients.now who wants.now calls cap }
{
    let missing = missing_of(pages, clients, who, wants);
    let blockers = blockers_of(pages, clients, who, missing.as_slice());
    if blockers.count() > 0 {
        let blocked = blocked_of(pages, clients, who, missing.as_slice());
        return Decision::Pending(blockers, blocked);
    }
    if cap < missing.as_slice().len() as u32 + calls {
        return Decision::Full;
    }
    match first_unframed(pages, missing.as_slice()) {
        Some(want) => Decision::Load(want.page),
        None => Decision::Grant(missing),
    }
}

/// The right that a client keeps to a page as it meets the asks of the others.
fn right_kept(pages: &Pages, clients: &Clients, who: Who, page: Page) -> Option<Right>
    requires { page < length pages.now.rights }
    ensures { result ≡ kept_in pages.now clients.now who page }
{
    let right = pages.right(who, page)?;
    if clients.askers(who, page, true).count() > 0 {
        return None;
    }
    if clients.askers(who, page, false).count() > 0 {
        return Some(Right::Read);
    }
    Some(right)
}

/// Whether a right, where there is one, allows what is wanted.
pub(crate) fn permits(right: Option<Right>, wanted: Right) -> bool
    ensures { result ≡ does_permit right wanted }
{
    match right {
        None => false,
        Some(Right::Read) => wanted == Right::Read,
        Some(Right::Write) => true,
    }
}

/// The wants that a client will not hold with at least their right.
pub(crate) fn missing_of(pages: &Pages, clients: &Clients, who: Who, wants: &[Want]) -> FewWants
    requires few { length wants.now ≤ 4 }
    requires range { (want : AWant) → Contains wants.now want
        → want.page < length pages.now.rights }
    ensures { result ≡ missing_in pages.now clients.now who wants.now }
{
    let mut missing = FewWants::none();
    for want in wants {
        if !permits(right_kept(pages, clients, who, want.page), want.right) {
            missing.push(*want);
        }
    }
    missing
}

fn fell(before: Option<Right>, after: Option<Right>) -> bool
    ensures { result ≡ has_fallen before after }
{
    match (before, after) {
        (None, _) => false,
        (Some(_), None) => true,
        (Some(right), Some(left)) => right == Right::Write && left == Right::Read,
    }
}

/// Whether a client gives a page up as it meets the asks of the others.
fn is_given(pages: &Pages, clients: &Clients, who: Who, page: Page) -> bool
    requires { page < length pages.now.rights }
    ensures { result ≡ is_given_in pages.now clients.now who page }
{
    fell(
        pages.right(who, page),
        right_kept(pages, clients, who, page),
    )
}

/// The other clients that stand in the way of a want.
fn blockers_of_one(pages: &Pages, clients: &Clients, who: Who, want: Want) -> Crew
    requires { want.page < length pages.now.rights }
    ensures { result ≡ crew_of (stands_in_the_way pages.now clients.now who want) }
{
    let page = want.page;
    let conflicts = pages.conflicts(who, want);
    if is_given(pages, clients, who, page) {
        conflicts.union(clients.askers(who, page, false))
    } else {
        conflicts
    }
}

/// The other clients that stand in the way of one of these wants.
fn blockers_of(pages: &Pages, clients: &Clients, who: Who, missing: &[Want]) -> Crew
    requires { (want : AWant) → Contains missing.now want → want.page < length pages.now.rights }
    ensures { result ≡ blockers_in pages.now clients.now who missing.now }
{
    let mut blockers = Crew::none();
    for want in missing {
        blockers = blockers.union(blockers_of_one(pages, clients, who, *want));
    }
    blockers
}

/// The wants that another client stands in the way of.
fn blocked_of(pages: &Pages, clients: &Clients, who: Who, missing: &[Want]) -> FewWants
    requires few { length missing.now ≤ 4 }
    requires range { (want : AWant) → Contains missing.now want
        → want.page < length pages.now.rights }
    ensures { result ≡ blocked_in pages.now clients.now who missing.now }
{
    let mut blocked = FewWants::none();
    for want in missing {
        if blockers_of_one(pages, clients, who, *want).count() > 0 {
            blocked.push(*want);
        }
    }
    blocked
}

/// The first want of whose page the server has no frame.
fn first_unframed(pages: &Pages, missing: &[Want]) -> Option<Want>
    requires { (want : AWant) → Contains missing.now want → want.page < length pages.now.rights }
    ensures { result ≡ unframed_in pages.now missing.now }
{
    for want in missing {
        if !pages.has_frame(want.page) {
            return Some(*want);
        }
    }
    None
}
