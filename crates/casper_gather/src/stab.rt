ghost use Rattle.std.specs.Prelude.{◌≡◌, if◌then◌else◌};
ghost use Rattle.casper_model.specs.Stabilisation.{is_empty, with_noted};
ghost use Rattle.casper_model.specs.Stabilise.{reply_in_phase, with_asker};
ghost use Rattle.casper_gather.specs.Bookkeeping.{stabilisation_of, begun_by, after_hand_in, without_asker, resolved_by, AwaitsAsItGathers};

use crate::Resolved;
use casper_model::{Outcome, StabReply};
use casper_words::{Crew, Who};

/// How far a stabilisation is.
#[derive(Clone, Copy, Debug, PartialEq, Eq)]
pub enum Phase {
    /// Members have to hand in pages that they hold for writing.
    Gathering,
    /// All members have handed in.
    Sealed,
    /// Its write-out ended in doubt.
    Doubt,
}

/// The stabilisation of an association.
#[derive(Clone, Copy, Debug, PartialEq, Eq)]
pub struct Stab {
    /// The client that began it.
    pub lead: Who,
    /// The label of the association.
    pub label: u32,
    /// The members that have to hand in pages.
    pub left: Crew,
    /// The clients that wait for the outcome.
    pub askers: Crew,
    /// The first member whose loss was noted.
    pub noted: Option<Who>,
    pub phase: Phase,
}

impl Stab {
    /// The stabilisation that a client begins, who waits for the outcome. It gathers while members have to hand in pages, and is
    /// sealed where there are none.
    pub fn begin(lead: Who, label: u32, left: Crew) -> Stab
        ensures begun { stabilisation_of result ≡ begun_by lead left }
        ensures label { result.label ≡ label }
        ensures awaits { AwaitsAsItGathers result }
    {
        Stab {
            lead,
            label,
            left,
            askers: Crew::none().with(lead),
            noted: None,
            phase: phase_awaiting(left),
        }
    }

    /// Notes that a member handed in its pages. After the last one it is sealed. Nothing changes unless it gathers.
    pub fn handed(&mut self, who: Who)
        ensures handed { stabilisation_of self.new ≡ after_hand_in who (stabilisation_of self.old) }
        ensures label { self.new.label ≡ self.old.label }
        ensures awaits { AwaitsAsItGathers self.old → AwaitsAsItGathers self.new }
    {
        if self.phase == Phase::Gathering {
            self.left = self.left.without(who);
            self.phase = phase_awaiting(self.left);
        }
    }

    /// Notes the loss of a member. The first one stays noted.
    pub fn note(&mut self, who: Who)
        ensures noted { stabilisation_of self.new ≡ with_noted who (stabilisation_of self.old) }
        ensures phase { self.new.phase ≡ self.old.phase }
        ensures label { self.new.label ≡ self.old.label }
    {
        self.noted = self.noted.or(Some(who));
    }

    /// Notes that a client waits for the outcome. Nothing changes where it does.
    pub fn ask(&mut self, who: Who)
        ensures asked { stabilisation_of self.new ≡ with_asker who (stabilisation_of self.old) }
        ensures phase { self.new.phase ≡ self.old.phase }
        ensures label { self.new.label ≡ self.old.label }
    {
        self.askers = self.askers.with(who);
    }

    /// Notes that a client, which departs or vanishes, no longer waits for the outcome.
    pub fn forget(&mut self, who: Who)
        ensures gone { stabilisation_of self.new ≡ without_asker who (stabilisation_of self.old) }
        ensures phase { self.new.phase ≡ self.old.phase }
        ensures label { self.new.label ≡ self.old.label }
    {
        self.askers = self.askers.without(who);
    }

    /// How far it is, as what a member is answered that wants its association stable.
    pub fn progress(self) -> StabReply
        ensures { result
            ≡ reply_in_phase (stabilisation_of self) ((stabilisation_of self).phase) }
    {
        match self.phase {
            Phase::Gathering => StabReply::Gathering(self.left),
            Phase::Sealed => StabReply::Doing(self.lead),
            Phase::Doubt => StabReply::Doubtful(self.lead),
        }
    }

    /// What the outcome of the write-out comes to. After a failure a loss that was noted is carried out; after a commit it is forgotten.
    pub fn resolve(self, outcome: Outcome) -> Resolved
        ensures { result ≡ resolved_by self outcome }
    {
        match outcome {
            Outcome::Ok(_) => Resolved::Commit(self.askers),
            Outcome::Doubt => Resolved::Doubt(Stab {
                phase: Phase::Doubt,
                ..self
            }),
            Outcome::Full { .. } | Outcome::Worn | Outcome::Disk => match self.noted {
                Some(lost) => Resolved::Undo(lost),
                None => Resolved::Fail(self.askers),
            },
        }
    }
}

/// The phase of a stabilisation in which these members have to hand in pages.
fn phase_awaiting(left: Crew) -> Phase
    ensures { result ≡ (if is_empty left then Phase.Sealed else Phase.Gathering) }
{
    if left.count() == 0 {
        Phase::Sealed
    } else {
        Phase::Gathering
    }
}

#[cfg(test)]
mod tests;
