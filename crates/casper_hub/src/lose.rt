ghost use Rattle.std.specs.Prelude.{◌≡◌, ◌≢◌, ◌==◌, ℕ, List, true, false, None, [], length, if◌then◌else◌};
ghost use Rattle.casper_assoc.specs.Labelling.{is_writer, writer_of};
ghost use Rattle.casper_assoc.specs.TrailAssociations.{open_calls_of, pages_in};
ghost use Rattle.casper_model.specs.Leave.{vanish as machine_vanish};
ghost use Rattle.casper_model.specs.Loss.{lose as machine_lose, loss_of};
ghost use Rattle.casper_hub.specs.HubView.{is_live as is_live_in, fallen_in, place_in, frame_in, felled};
ghost use Rattle.casper_hub.specs.Losing.{BecomesAbsent, IsHeldOf, MayWriteNothing};
ghost use Rattle.casper_hub.specs.Owned.{Owns};
ghost use Rattle.casper_hub.specs.RollingBack.{RollsBack, is_mark_due};
ghost use Rattle.casper_hub.specs.Sound.{IsSound};
ghost use Rattle.casper_hub.specs.Felling.{is_among};
ghost use Rattle.casper_hub.specs.GoesOn.{KeepsClient, CommitsNothing};
ghost use Rattle.casper_hub.specs.Words.{FramesAreRight};
ghost use Rattle.casper_hub.specs.Turns.{IsTurn, IsChange};

use crate::Hub;
use crate::clients::{Clients, Fall};
use crate::pages::Pages;
use casper_assoc::Associations;
use casper_cache::Cache;
use casper_frozen::member_of;
use casper_gather::{Phase, Stab, Unended};
use casper_model::Loss;
use casper_trail::Mark;
use casper_words::{Crew, Who};

impl Hub {
    /// A live client is declared lost by another: its association is rolled back, and each live member falls, that client too. Where the
    /// association is sealed, written or in doubt, the loss is noted instead, for the end of that stabilisation, and nobody falls.
    /// Already where the client had fallen; then nothing has changed. It takes no memory, and a time that the length of the trail
    /// doesn't change.
    pub fn lose(&mut self, who: Who) -> Loss
        requires live { is_live_in self.old who ≡ true }
        ensures turn { IsChange (λ shared. machine_lose shared who) result self.old self.new }
        ensures frames { (base : List (List ℕ)) → FramesAreRight base self.old
            → FramesAreRight base self.new }
        ensures others { (other : ℕ) → KeepsClient other self.old self.new }
        ensures still { CommitsNothing self.old self.new }
        ensures sound { IsSound self.new }
    {
        if let Some(fall) = self.clients.fall(who) {
            return Loss::Already { mark: fall.mark };
        }
        self.lose_now(who, 0)
    }

    /// A live client vanishes, with its pages and its pending calls: its association is rolled back, and the client is absent. Where the
    /// association is sealed, written or in doubt, the loss is noted instead, for the end of that stabilisation, and nobody else falls.
    /// Where the client had fallen its mark stands. It takes no memory, and a time that the length of the trail doesn't change.
    pub fn vanish(&mut self, who: Who, cache: &mut Cache) -> Loss
        requires client { cache.old.client ≡ who }
        requires owns { Owns self.old cache.old }
        ensures turn { IsTurn machine_vanish result self.old cache.old self.new cache.new }
        ensures absent { is_live_in self.new who ≡ false }
        ensures client_after { cache.new.client ≡ who }
        ensures frames { (base : List (List ℕ)) → FramesAreRight base self.old
            → FramesAreRight base self.new }
        ensures others { (other : ℕ) → other ≢ who → KeepsClient other self.old self.new }
        ensures still { CommitsNothing self.old self.new }
        ensures sound { IsSound self.new }
    {
        let unrecorded = cache.pending().as_slice().len() as u32;
        if let Some(fall) = self.clients.fall(who) {
            self.make_absent(who);
            empty(cache);
            return Loss::Lost {
                mark: fall.mark,
                unrecorded,
            };
        }
        let loss = self.lose_now(who, unrecorded);
        self.make_absent(who);
        empty(cache);
        loss
    }

    /// The loss of a live client that has not fallen, with so many unrecorded calls: noted where its association is sealed, written or in
    /// doubt. Else its association is rolled back.
    fn lose_now(&mut self, who: Who, unrecorded: u32) -> Loss
        requires live { is_live_in self.old who ≡ true }
        requires up { fallen_in self.old who ≡ None }
        ensures turn { IsChange (λ shared. loss_of shared who unrecorded) result self.old self.new }
        ensures unwritten { MayWriteNothing self.new who }
        ensures frames { (base : List (List ℕ)) → FramesAreRight base self.old
            → FramesAreRight base self.new }
        ensures sound { IsSound self.new }
    {
        if let Some(held) = held_of(&self.unended, &self.associations, who) {
            let mut noting = held;
            noting.note(who);
            self.unended.change(noting);
            return Loss::Noted {
                lead: held.lead,
                unrecorded,
            };
        }
        let mark = self.roll_back(who);
        Loss::Lost { mark, unrecorded }
    }

    /// Rolls the association of a client back that has not fallen, and gives the place of the mark. A client that is not live was lost
    /// before, while its association was made stable.
    pub(crate) fn roll_back(&mut self, lost: Who) -> u64
        requires due { is_mark_due lost self.old ≡ true }
        requires up { fallen_in self.old lost ≡ None }
        ensures mark { result ≡ length self.old.trail }
        ensures rolls { RollsBack lost self.old self.new }
        ensures sound { IsSound self.new }
    {
        let members = self.associations.members(lost);
        let place = self.trail.len();
        fell_each(&mut self.clients, &self.associations, members, place);
        self.pages.revoke(members);
        forget_written(&mut self.pages, &self.associations, members);
        self.associations.dissolve(lost);
        self.unended.end(members);
        self.trail.mark(Mark::Rollback { lost, members })
    }

    /// Makes a client absent, with no right and waiting for no outcome. It goes over the pages once.
    fn make_absent(&mut self, who: Who)
        ensures absent { BecomesAbsent who self.old self.new }
        ensures sound { IsSound self.new }
    {
        self.clients.leave(who);
        self.unended.forget(who);
        self.pages.revoke(Crew::none().with(who));
    }
}

/// The stabilisation that a client is a member of, where all of its members have handed in their pages.
fn held_of(unended: &Unended, associations: &Associations, who: Who) -> Option<Stab>
    ensures held { IsHeldOf unended.now associations.now who result }
{
    match member_of(unended, associations, who) {
        Some(one) if one.phase != Phase::Gathering => Some(one),
        _ => None,
    }
}

/// Empties the cache of a client that is absent.
fn empty(cache: &mut Cache)
    ensures { cache.new ≡ record cache.old { pending = []; held = []; cap = 0 } }
{
    cache.clear();
    cache.allow(0);
}

/// Notes of each live member that it fell by the mark at this place.
fn fell_each(clients: &mut Clients, associations: &Associations, members: Crew, mark: u64)
    requires { length clients.old ≡ 33 }
    ensures count { length clients.new ≡ length clients.old }
    ensures members { (who : ℕ) → place_in clients.new who ≡ (if is_among 33 members who then felled
        (record { mark = mark; dropped = open_calls_of associations.now who })
        (place_in clients.old who) else place_in clients.old who) }
{
    for number in 1..Who::MOST + 1 {
        if let Some(who) = Who::new(number) {
            if members.has(who) {
                let dropped = associations.open_calls(who);
                clients.fell(who, Fall { mark, dropped });
            }
        }
    }
}

/// Drops the server's frames of the pages that these clients wrote.
pub(crate) fn forget_written(pages: &mut Pages, associations: &Associations, members: Crew)
    requires { pages_in associations.now ≡ length pages.old.rights }
    ensures rights { pages.new.rights ≡ pages.old.rights }
    ensures count { length pages.new.frames ≡ length pages.old.frames }
    ensures frames { (page : ℕ) → frame_in pages.new page
        ≡ (if is_writer (is_among 33 members)
        (writer_of associations.now.labelling page) then None else frame_in pages.old page) }
{
    for number in 1..Who::MOST + 1 {
        if let Some(who) = Who::new(number) {
            if members.has(who) {
                forget_of(pages, associations, who);
            }
        }
    }
}

/// Drops the server's frames of the pages that a client wrote.
fn forget_of(pages: &mut Pages, associations: &Associations, who: Who)
    requires { pages_in associations.now ≡ length pages.old.rights }
    ensures rights { pages.new.rights ≡ pages.old.rights }
    ensures count { length pages.new.frames ≡ length pages.old.frames }
    ensures frames { (page : ℕ) → frame_in pages.new page ≡ (if is_writer (λ writer. writer == who)
        (writer_of associations.now.labelling page) then None else frame_in pages.old page) }
{
    pages.forget(associations.written(who));
}
