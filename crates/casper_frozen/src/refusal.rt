ghost use Rattle.std.specs.Prelude.{◌≡◌};
ghost use Rattle.casper_assoc.specs.TrailAssociations.{WantsAreWithin};
ghost use Rattle.casper_frozen.specs.Refused.{reply_of, Refuses, AreMembersOfPages, IsFrozenOf, IsFrozenOfPages};

use crate::finding::{frozen_among, is_doubt_among};
use casper_assoc::Associations;
use casper_gather::{Stab, Unended};
use casper_model::Reply;
use casper_words::{Crew, Want, Who};

/// Why what is missing is not granted, whoever holds it.
#[derive(Clone, Copy, Debug, PartialEq, Eq)]
pub enum Refusal {
    /// The client, or a page, belongs to the association in doubt.
    InDoubt,
    /// The client, or a page, belongs to a frozen association with this lead.
    Frozen(Who),
}

impl Refusal {
    /// The refusal as what a turn answers.
    pub fn reply(self) -> Reply
        ensures { result ≡ reply_of self }
    {
        match self {
            Refusal::InDoubt => Reply::InDoubt,
            Refusal::Frozen(lead) => Reply::Frozen(lead),
        }
    }
}

/// What a client that lacks these wants is refused with, before anybody's right is asked: nothing where it lacks none. First a
/// doubt counts, then the client's own association, then that of the first page that belongs to a frozen one. It costs nothing
/// where no stabilisation is unended, and else the 32 clients for each want.
pub fn refusal_of(
    unended: &Unended,
    associations: &Associations,
    who: Who,
    missing: &[Want],
) -> Option<Refusal>
    requires within { WantsAreWithin associations.now missing.now }
    ensures refused { Refuses unended.now associations.now who missing.now result }
{
    if unended.each().is_empty() || missing.is_empty() {
        return None;
    }
    let own = associations.members(who);
    let concerned = own.union(members_of_pages(associations, missing));
    if is_doubt_among(unended.each(), concerned) {
        return Some(Refusal::InDoubt);
    }
    let one = frozen_of(unended, associations, own, missing)?;
    Some(Refusal::Frozen(one.lead))
}

/// The clients whose association modifies a page of these wants.
fn members_of_pages(associations: &Associations, missing: &[Want]) -> Crew
    requires within { WantsAreWithin associations.now missing.now }
    ensures members { AreMembersOfPages associations.now missing.now result }
{
    let mut members = Crew::none();
    for want in missing {
        members = members.union(associations.page_members(want.page));
    }
    members
}

/// The frozen one that these members belong to, and else the first one that a page of these wants belongs to.
fn frozen_of(
    unended: &Unended,
    associations: &Associations,
    own: Crew,
    missing: &[Want],
) -> Option<Stab>
    requires within { WantsAreWithin associations.now missing.now }
    ensures frozen { IsFrozenOf unended.now associations.now own missing.now result }
{
    match frozen_among(unended.each(), own) {
        Some(one) => Some(one),
        None => frozen_of_pages(unended, associations, missing),
    }
}

/// The frozen one that the first page of these wants belongs to that belongs to any.
fn frozen_of_pages(unended: &Unended, associations: &Associations, missing: &[Want]) -> Option<Stab>
    requires within { WantsAreWithin associations.now missing.now }
    ensures frozen { IsFrozenOfPages unended.now associations.now missing.now result }
{
    for want in missing {
        let members = associations.page_members(want.page);
        if let Some(one) = frozen_among(unended.each(), members) {
            return Some(one);
        }
    }
    None
}
