ghost use Rattle.std.specs.Prelude.{◌≡◌, ◌+◌, ◌<◌, ◌≤◌, ◌++◌, ◌∷◌, [], OnOk, OnErr, IsOk, vec_len, vec_capacity};
ghost use Rattle.casper_gather.specs.Unended.{led_by, led_among, sealed_by, first_sealed_in, sealed_leads, first_in, is_doubtful, with_changed, but_led_among, without_asker_of_each};

use crate::{Phase, Stab};
use casper_words::{Crew, Memory, Who};
use std::alloc::Global;
use std::marker::Model;

/// The stabilisations that have not ended, in the order in which they began. Contracts see them and the room: how many more may begin
/// before memory is needed.
#[derive(Drop)]
pub struct Unended {
    each: Vec<Stab>,
}

impl Model for Unended {
    ghost use Rattle.std.specs.Prelude.{◌-◌, vec_len, vec_capacity};
    ghost use Rattle.casper_gather.specs.Unended.{UnendedView};

    ghost Value = { UnendedView };

    ghost view = { λ unended. record {
      each = unended.each.items;
      room = vec_capacity unended.each - vec_len unended.each;
    } };
}

impl Unended {
    /// None, with no room. It takes no memory.
    pub fn new(alloc: Global) -> Unended
        ensures none { result.each ≡ [] }
    {
        Unended {
            each: Vec::new(alloc),
        }
    }

    /// Makes room for one more to begin.
    pub fn reserve(&mut self) -> Result<(), Memory>
        ensures each { self.new.each ≡ self.old.each }
        ensures room { OnOk result (0 < self.new.room) }
        ensures succeeds { 0 < self.old.room → IsOk result }
        ensures err { OnErr result (self.new ≡ self.old) }
    {
        if self.each.len() == self.each.capacity() {
            self.each.reserve(1)?;
        }
        Ok(())
    }

    /// One more begins. It takes no memory.
    pub fn begin(&mut self, one: Stab)
        requires { 0 < self.old.room }
        ensures each { self.new.each ≡ self.old.each ++ one ∷ [] }
        ensures room { self.old.room ≡ self.new.room + 1 }
    {
        // So that the proof knows the types of the fields.
        let _noted: Option<Who> = None;
        self.each.push_reserved(one);
    }

    /// All of them, in the order in which they began.
    pub fn each(&self) -> &[Stab]
        ensures { result.now ≡ self.now.each }
    {
        &self.each
    }

    /// The one with this lead.
    pub fn led_by(&self, lead: Who) -> Option<Stab>
        ensures { result ≡ led_by lead self.now.each }
    {
        first_led_by(&self.each, lead)
    }

    /// The one whose lead is among these clients.
    pub fn led_among(&self, members: Crew) -> Option<Stab>
        ensures { result ≡ led_among members self.now.each }
    {
        first_led_among(&self.each, members)
    }

    /// The sealed one with this lead.
    pub fn sealed_by(&self, lead: Who) -> Option<Stab>
        ensures { result ≡ sealed_by lead self.now.each }
    {
        sealed_one_of(&self.each, lead)
    }

    /// The least lead of those that are sealed.
    pub fn first_sealed(&self) -> Option<Who>
        ensures { result ≡ first_sealed_in self.now.each }
    {
        sealed_leads(&self.each).least()
    }

    /// The one in doubt.
    pub fn doubtful(&self) -> Option<Stab>
        ensures { result ≡ first_in is_doubtful self.now.each }
    {
        doubtful_of(&self.each)
    }

    /// Changes the one that has the same lead.
    pub fn change(&mut self, changed: Stab)
        ensures each { self.new.each ≡ with_changed changed self.old.each }
        ensures room { self.new.room ≡ self.old.room }
    {
        change_each(&mut self.each, changed);
    }

    /// Ends those that are led by one of these clients.
    pub fn end(&mut self, leads: Crew)
        ensures each { self.new.each ≡ but_led_among leads self.old.each }
        ensures room { self.old.room ≤ self.new.room }
    {
        end_each(&mut self.each, leads);
    }

    /// A client, which departs or vanishes, waits for no outcome.
    pub fn forget(&mut self, who: Who)
        ensures each { self.new.each ≡ without_asker_of_each who self.old.each }
        ensures room { self.new.room ≡ self.old.room }
    {
        forget_each(&mut self.each, who);
    }
}

fn first_led_by(each: &[Stab], lead: Who) -> Option<Stab>
    ensures { result ≡ led_by lead each.now }
{
    each.iter().find(|one| one.lead == lead).copied()
}

fn first_led_among(each: &[Stab], members: Crew) -> Option<Stab>
    ensures { result ≡ led_among members each.now }
{
    each.iter().find(|one| members.has(one.lead)).copied()
}

fn sealed_one_of(each: &[Stab], lead: Who) -> Option<Stab>
    ensures { result ≡ sealed_by lead each.now }
{
    each.iter()
        .find(|one| one.lead == lead && one.phase == Phase::Sealed)
        .copied()
}

/// The leads of those that are sealed.
fn sealed_leads(each: &[Stab]) -> Crew
    ensures { result ≡ sealed_leads each.now }
{
    let mut leads = Crew::none();
    for one in each {
        if one.phase == Phase::Sealed {
            leads = leads.with(one.lead);
        }
    }
    leads
}

fn doubtful_of(each: &[Stab]) -> Option<Stab>
    ensures { result ≡ first_in is_doubtful each.now }
{
    each.iter().find(|one| one.phase == Phase::Doubt).copied()
}

fn change_each(each: &mut [Stab], changed: Stab)
    ensures { each.new ≡ with_changed changed each.old }
{
    for one in each.iter_mut() {
        *one = if one.lead == changed.lead {
            changed
        } else {
            *one
        };
    }
}

fn end_each(each: &mut Vec<Stab>, leads: Crew)
    ensures each { each.new.items ≡ but_led_among leads each.old.items }
    ensures len { vec_len each.new ≤ vec_len each.old }
    ensures capacity { vec_capacity each.new ≡ vec_capacity each.old }
{
    each.retain(|one| !leads.has(one.lead));
}

fn forget_each(each: &mut [Stab], who: Who)
    ensures { each.new ≡ without_asker_of_each who each.old }
{
    for one in each.iter_mut() {
        one.forget(who);
    }
}

#[cfg(test)]
mod tests;
