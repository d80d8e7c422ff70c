ghost use Rattle.std.specs.Prelude.{◌≡◌, ◌⊎◌, ◌+◌, ◌<◌, ◌≤◌, ℕ, Bool, false, List, IsTrue, IsErrOf, OnOk, OnErr};
ghost use Rattle.casper_words.specs.Count.{FaultCountRose};
ghost use Rattle.casper_root.specs.Format.{body_block};
ghost use Rattle.casper_root.specs.Slots.{other_slot};
ghost use Rattle.casper_commit.specs.Added.{AddsImages};
ghost use Rattle.casper_commit.specs.GateMoment.{CallsGate, FailsAtGate};
ghost use Rattle.casper_commit.specs.Pieces.{GoInto};
ghost use Rattle.casper_commit.specs.Root.{seq_of};
ghost use Rattle.casper_commit.specs.States.{OpensTo, RootStands, root_at};
ghost use Rattle.casper_stable.specs.Writing.{piece_count, piece_place, IsWritten, NextStands, GateDecides, IsOldOrWritten};
ghost use Rattle.casper_stable.specs.UntilGate.{WrittenUntilGate};

use crate::pieces::Written;
use casper_commit::{Standing, put_frames, put_root};
use casper_disk::{CommitFault, Disk};
use casper_root::Body;
use casper_words::Block;

/// Makes a commit: writes the pages that change and their map blocks into free frames, and then makes this body that of the current
/// root. The blocks are used to write.
pub(crate) fn put_plan<D: Disk>(
    disk: &mut D,
    block: &mut Block,
    root_block: &mut Block,
    standing: &mut Standing,
    written: &Written,
    body: &Body,
) -> Result<(), CommitFault>
    requires room { 5 + written.now.held.frames ≤ D.size disk.old }
    requires is { IsWritten written.now }
    ensures moved { OnOk result (standing.new
        ≡ record { slot = other_slot standing.old.slot; spare_closed = false }) }
    ensures stays { OnErr result (standing.new.slot ≡ standing.old.slot) }
    ensures unknown { IsErrOf result CommitFault.Doubt → standing.new.spare_closed ≡ false }
    ensures causes { OnErr result (IsErrOf result CommitFault.Disk
        ⊎ IsErrOf result CommitFault.Doubt) }
    ensures new { IsTrue D.tells → (was : List ℕ) (free : ℕ → Bool) (base : List (List ℕ))
        → GoInto piece_count piece_place free written.now
        → RootStands standing.old was free base (D.content disk.old) (D.loose disk.old)
        → seq_of was < seq_of (body_block body.now)
        → OnOk result (NextStands written.now free base standing.new (body_block body.now)
        (D.content disk.new) (D.loose disk.new)) }
    ensures old { IsTrue D.tells → (was : List ℕ) (free : ℕ → Bool) (base : List (List ℕ))
        → GoInto piece_count piece_place free written.now
        → RootStands standing.old was free base (D.content disk.old) (D.loose disk.old)
        → IsErrOf result CommitFault.Disk
        → RootStands standing.new was free base (D.content disk.new) (D.loose disk.new) }
    ensures doubt { IsTrue D.tells → (was : List ℕ) (free : ℕ → Bool) (base : List (List ℕ))
        → GoInto piece_count piece_place free written.now
        → RootStands standing.old was free base (D.content disk.old) (D.loose disk.old)
        → seq_of was < seq_of (body_block body.now)
        → IsErrOf result CommitFault.Doubt
        → GateDecides written.now (root_at standing.old was) (body_block body.now) free base
        (D.content disk.new) (D.loose disk.new) }
    ensures images { IsTrue D.tells → (was : List ℕ) (free : ℕ → Bool) (base : List (List ℕ))
        → GoInto piece_count piece_place free written.now
        → RootStands standing.old was free base (D.content disk.old) (D.loose disk.old)
        → seq_of was < seq_of (body_block body.now)
        → AddsImages D.moment D.images_since disk.old disk.new
        (IsOldOrWritten written.now (root_at standing.old was) (body_block body.now) free base) }
    ensures old_images { IsTrue D.tells → (was : List ℕ) (free : ℕ → Bool) (base : List (List ℕ))
        → GoInto piece_count piece_place free written.now
        → RootStands standing.old was free base (D.content disk.old) (D.loose disk.old)
        → IsErrOf result CommitFault.Disk
        → AddsImages D.moment D.images_since disk.old disk.new (OpensTo
        (root_at standing.old was) free base) }
    ensures gate_call { OnOk result (CallsGate D.leads_to D.faults (λ at_gate. IsTrue D.tells
        → WrittenUntilGate D.content D.loose D.moment D.images_since
        written.now standing.old disk.old at_gate disk.new) disk.old disk.new) }
    ensures gate_call_in_doubt { IsErrOf result CommitFault.Doubt
        → FailsAtGate D.leads_to D.faults (λ at_gate. IsTrue D.tells
        → WrittenUntilGate D.content D.loose D.moment D.images_since
        written.now standing.old disk.old at_gate disk.new) disk.old disk.new }
    ensures size { D.size disk.new ≡ D.size disk.old }
    ensures leads { D.leads_to disk.old disk.new }
    ensures counted { OnErr result (FaultCountRose (D.faults disk.old) (D.faults disk.new)) }
    ensures never_falls { D.faults disk.old ≤ D.faults disk.new }
{
    if put_frames(disk, block, written).is_err() {
        return Err(CommitFault::Disk);
    }
    body.to_block(root_block);
    put_root(disk, block, standing, root_block)
}
