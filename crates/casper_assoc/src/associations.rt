ghost use Rattle.std.specs.Prelude.{◌≡◌, ◌<◌, ◌+◌, ◌^◌, ℕ, [], Contains, length, slice_index, count_by, if◌then◌else◌, IfOk};
ghost use Rattle.casper_words.specs.declared.call.Call.{Call};
ghost use Rattle.casper_words.specs.Crew.{IsClient, has_member};
ghost use Rattle.casper_trail.specs.Calls.{is_read_or_write};
ghost use Rattle.casper_assoc.specs.Labelling.{IsSound};
ghost use Rattle.casper_assoc.specs.Written.{AreWrittenBy};
ghost use Rattle.casper_assoc.specs.TrailLabels.{NotesCalls};
ghost use Rattle.casper_assoc.specs.TrailAssociations.{AreAssociationsOf, AreSound, pages_in, open_calls_of, CallsAreWithin, WantsAreWithin, PagesAreWithin, AreMembersOf, AreMembersOfPage, RecordsCalls, TouchesPage, TouchesEach, DissolvesAssociation};

use crate::Labels;
use casper_words::{Call, Crew, Memory, Op, Page, Want, Who};
use std::alloc::Global;
use std::marker::Model;

/// The associations of a trail: its parts and the labels of its modified pages, and how many open calls each client has. It
/// grows with the trail and never reads it. Contracts see the labels and the counts, and speak of each trail whose associations
/// these are.
#[derive(Drop)]
pub struct Associations {
    labels: Labels,
    open_calls: [u32; Who::PLACES],
}

impl Model for Associations {
    ghost use Rattle.casper_assoc.specs.TrailAssociations.{AssociationsView, AreSound};

    ghost Value = { AssociationsView };

    ghost view = { λ all. record { labelling = all.labels; counts = all.open_calls } };

    ghost invariant = { λ all. AreSound (record { labelling = all.labels; counts = all.open_calls }) };
}

impl Associations {
    /// The associations of the empty trail, for a store of so many pages. No other call takes memory.
    pub fn new(alloc: Global, pages: u32) -> Result<Associations, Memory>
        ensures trail { IfOk result (λ all. AreAssociationsOf all []) }
        ensures pages { IfOk result (λ all. pages_in all ≡ pages) }
        ensures sound { IfOk result (λ all. AreSound all) }
    {
        let labels = Labels::new(alloc, pages)?;
        Ok(Associations {
            labels,
            open_calls: [0; Who::PLACES],
        })
    }

    /// The members of a client's association. It costs the 32 clients.
    pub fn members(&self, who: Who) -> Crew
        ensures members { AreMembersOf self.now who result }
        ensures sound { AreSound self.now }
    {
        let label = self.labels.label(who);
        self.labels.members(label)
    }

    /// The members of the association by which a page is modified: nobody where the page has no open write. It costs the 32
    /// clients.
    pub fn page_members(&self, page: Page) -> Crew
        requires within { page < pages_in self.now }
        ensures members { AreMembersOfPage self.now page result }
        ensures sound { AreSound self.now }
    {
        match self.labels.page_label(page) {
            Some(label) => self.labels.members(label),
            None => Crew::none(),
        }
    }

    /// How many open reads and writes a client has.
    pub fn open_calls(&self, who: Who) -> u32
        ensures count { result ≡ open_calls_of self.now who }
        ensures sound { AreSound self.now }
    {
        self.open_calls[who.number() as usize]
    }

    /// The pages that a client labelled, each once. Those of all members of an association are the pages that it modified.
    pub fn written(&self, who: Who) -> &[Page]
        ensures pages { AreWrittenBy self.now.labelling.writers who result.now }
        ensures within { PagesAreWithin self.now result.now }
        ensures sound { AreSound self.now }
    {
        self.labels.written(who)
    }

    /// Records calls of a client, on pages whose open writes are of its association. It costs the calls.
    pub fn record(&mut self, who: Who, calls: &[Call])
        requires within { CallsAreWithin self.old calls.now }
        requires count { open_calls_of self.old who + length calls.now < 2 ^ 32 }
        ensures trail { RecordsCalls self.old self.new who calls.now }
        ensures pages { pages_in self.new ≡ pages_in self.old }
        ensures sound { AreSound self.new }
    {
        label_written(&mut self.labels, who, calls);
        self.open_calls[who.number() as usize] += count_calls(calls);
    }

    /// Records that a page was granted to a client: where the page has open writes, the client's association and theirs are one
    /// then. It costs the 32 clients.
    pub fn touch(&mut self, who: Who, page: Page)
        requires within { page < pages_in self.old }
        ensures trail { TouchesPage self.old self.new who page }
        ensures pages { pages_in self.new ≡ pages_in self.old }
        ensures sound { AreSound self.new }
        ensures client { IsClient who }
    {
        let own = self.labels.label(who);
        if let Some(label) = self.labels.page_label(page) {
            self.labels.merge(own, label);
        }
    }

    /// Records that these pages were granted to a client, in order.
    pub fn touch_each(&mut self, who: Who, wants: &[Want])
        requires within { WantsAreWithin self.old wants.now }
        ensures trail { TouchesEach self.old self.new who wants.now }
        ensures pages { pages_in self.new ≡ pages_in self.old }
        ensures sound { AreSound self.new }
    {
        // That the labels are sound is known once they are looked at, also where there are no wants.
        let _labels = &self.labels;
        for want in wants {
            self.touch(who, want.page);
        }
    }

    /// Records a mark of a client's association, of which no page is modified and no call is open then: each member is alone. It
    /// costs the 32 clients and the pages that the association modified.
    pub fn dissolve(&mut self, who: Who)
        ensures trail { DissolvesAssociation self.old self.new who }
        ensures pages { pages_in self.new ≡ pages_in self.old }
        ensures sound { AreSound self.new }
    {
        let label = self.labels.label(who);
        let members = self.labels.members(label);
        self.labels.dissolve(label);
        forget_calls(&mut self.open_calls, members);
    }
}

/// Labels the pages that calls of a client write, where they have no label.
fn label_written(labels: &mut Labels, who: Who, calls: &[Call])
    requires within { (call : Call) → Contains calls.now call
        → call.page < length labels.old.writers }
    requires sound { IsSound labels.old }
    ensures noted { NotesCalls labels.old labels.new who calls.now }
    ensures parts { labels.new.labels ≡ labels.old.labels }
    ensures count { length labels.new.writers ≡ length labels.old.writers }
    ensures sound { IsSound labels.new }
{
    for call in calls {
        if call.op == Op::Write {
            labels.wrote(call.page, who);
        }
    }
}

/// How many of these calls are reads and writes.
fn count_calls(calls: &[Call]) -> u32
    requires { length calls.now < 2 ^ 32 }
    ensures { result ≡ count_by (λ call. is_read_or_write call.op) calls.now }
{
    calls.iter().filter(|call| call.op != Op::Touch).count() as u32
}

/// Takes the counts of these clients away.
fn forget_calls(open_calls: &mut [u32; Who::PLACES], members: Crew)
    ensures count { length open_calls.new ≡ length open_calls.old }
    ensures counts { (client : ℕ) → IsClient client → slice_index open_calls.new client
        ≡ (if has_member client members then 0 else slice_index open_calls.old client) }
{
    for number in 1..Who::MOST + 1 {
        if let Some(who) = Who::new(number) {
            if members.has(who) {
                open_calls[number as usize] = 0;
            }
        }
    }
}

#[cfg(test)]
mod tests;
