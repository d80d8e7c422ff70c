ghost use Rattle.std.specs.Prelude.{◌≡◌, ℕ, List, None, Some, true, false, length, Contains, if◌then◌else◌};
ghost use Rattle.casper_gather.specs.Bookkeeping.{stabilisation_of, phase_of};
ghost use Rattle.casper_gather.specs.FinishLaws.{is_failure};
ghost use Rattle.casper_model.specs.Finish.{finish as machine_finish, settled as machine_settled};
ghost use Rattle.casper_model.specs.Stabilisation.{Stabilisation, is_gathering};
ghost use Rattle.casper_hub.specs.Committing.{Ends, Commits, ComesIntoDoubt, doubtful_in, in_doubt, IsHeldBy, OtherLeadsStand};
ghost use Rattle.casper_hub.specs.Felling.{is_among};
ghost use Rattle.casper_hub.specs.GoesOn.{KeepsClient};
ghost use Rattle.casper_hub.specs.HubView.{place_in, with_kept};
ghost use Rattle.casper_hub.specs.Sound.{IsSound};
ghost use Rattle.casper_hub.specs.Turns.{IsChange};
ghost use Rattle.casper_hub.specs.Words.{FramesAreRight};

use crate::Hub;
use crate::clients::Clients;
use crate::lose::forget_written;
use casper_gather::{Resolved, Stab};
use casper_model::{Finished, Kept, Outcome};
use casper_trail::Mark;
use casper_words::{Crew, Who};

impl Hub {
    /// Ends the write-out of the association of a lead, as it came out: the association is stable, or its noted loss is carried out, or
    /// the failure is kept for the clients that wait for the outcome, or it goes on in doubt. None, with nothing changed, where the
    /// lead has no stabilisation. It takes no memory, and a time that the length of the trail doesn't change.
    pub fn finish(&mut self, lead: Who, outcome: Outcome) -> Option<Finished>
        requires held { IsHeldBy self.old lead }
        ensures turn { IsChange (λ shared. machine_finish shared lead outcome) result self.old self.new }
        ensures frames { (base : List (List ℕ)) → FramesAreRight base self.old
            → FramesAreRight base self.new }
        ensures others { (who : ℕ) → KeepsClient who self.old self.new }
        ensures leads { OtherLeadsStand lead self.old self.new }
        ensures sound { IsSound self.new }
    {
        let one = self.unended.led_by(lead)?;
        Some(match one.resolve(outcome) {
            Resolved::Commit(_) => Finished::Committed(self.commit(one)),
            Resolved::Fail(_) => {
                self.fail(one, outcome);
                Finished::Failed(outcome)
            }
            Resolved::Undo(lost) => Finished::Undone(self.roll_back(lost)),
            Resolved::Doubt(doubtful) => {
                self.doubt(doubtful);
                Finished::Doubt
            }
        })
    }

    /// Makes the association stable whose write-out ended in doubt, once the vault has settled, and gives the place of the mark. None,
    /// with nothing changed, where none is in doubt. It takes no memory.
    pub fn settled(&mut self) -> Option<u64>
        ensures turn { IsChange machine_settled result self.old self.new }
        ensures frames { (base : List (List ℕ)) → FramesAreRight base self.old
            → FramesAreRight base self.new }
        ensures others { (who : ℕ) → KeepsClient who self.old self.new }
        ensures leads { (one : Stabilisation) → doubtful_in self.old ≡ Some one
            → OtherLeadsStand one.lead self.old self.new }
        ensures sound { IsSound self.new }
    {
        // So that the proof knows the types of the fields.
        let _noted: Option<Who> = None;
        let one = self.unended.doubtful()?;
        Some(self.commit(one))
    }

    /// Makes the association of a stabilisation stable, and gives the place of the mark.
    fn commit(&mut self, one: Stab) -> u64
        requires there { Contains self.old.stabilisations (stabilisation_of one) }
        requires held { is_gathering (phase_of one.phase) ≡ false }
        ensures mark { result ≡ length self.old.trail }
        ensures commits { Commits (stabilisation_of one) self.old self.new }
        ensures sound { IsSound self.new }
    {
        let members = self.associations.members(one.lead);
        let place = self.trail.len();
        keep_each(&mut self.clients, one.askers, Kept::Committed(place));
        self.unended.end(Crew::none().with(one.lead));
        forget_written(&mut self.pages, &self.associations, members);
        self.associations.dissolve(one.lead);
        self.trail.mark(Mark::Commit {
            lead: one.lead,
            members,
        })
    }

    /// Ends a stabilisation whose write-out failed.
    fn fail(&mut self, one: Stab, outcome: Outcome)
        requires there { Contains self.old.stabilisations (stabilisation_of one) }
        requires held { is_gathering (phase_of one.phase) ≡ false }
        requires fails { is_failure outcome ≡ true }
        requires none { one.noted ≡ None }
        ensures ends { Ends (stabilisation_of one) (Kept.Failed outcome) self.old self.new }
        ensures sound { IsSound self.new }
    {
        keep_each(&mut self.clients, one.askers, Kept::Failed(outcome));
        self.unended.end(Crew::none().with(one.lead));
    }

    /// Notes that a stabilisation is in doubt.
    fn doubt(&mut self, doubtful: Stab)
        requires there { ComesIntoDoubt self.old (stabilisation_of doubtful) }
        ensures doubts { self.new ≡ in_doubt doubtful.lead self.old }
        ensures sound { IsSound self.new }
    {
        self.unended.change(doubtful);
    }
}

/// Keeps an outcome for each of these clients that is live.
fn keep_each(clients: &mut Clients, askers: Crew, kept: Kept)
    requires { length clients.old ≡ 33 }
    ensures count { length clients.new ≡ length clients.old }
    ensures askers { (who : ℕ) → place_in clients.new who
        ≡ (if is_among 33 askers who then with_kept kept
        (place_in clients.old who) else place_in clients.old who) }
{
    for number in 1..Who::MOST + 1 {
        if let Some(who) = Who::new(number) {
            if askers.has(who) {
                clients.keep(who, kept);
            }
        }
    }
}
