ghost use Rattle.std.specs.Prelude.{◌≡◌, ◌≤◌, [], Some, false, is_err, IfOk, OnOk, OnErr};
ghost use Rattle.casper_words.specs.Count.{FaultCountRose};
ghost use Rattle.casper_io.specs.Memory.{fails_next, has_failed, after_call, after_fault};
ghost use Rattle.casper_io.specs.Piece.{GivesPiece};

use crate::failing::FailingCalls;
use crate::{IoFault, Line, Piece, Source};
use casper_words::Memory;
use std::alloc::Global;
use std::marker::Model;

/// A source over bytes in memory, which tells its bytes. The calls that are to fail are given by their numbers, counted
/// from 1.
#[derive(Drop)]
pub struct MemSource {
    bytes: Vec<u8>,
    at: usize,
    failing: FailingCalls,
}

impl Model for MemSource {
    ghost use Rattle.std.specs.Prelude.{◌≤◌, drop, length};
    ghost use Rattle.casper_io.specs.Memory.{HeldSource};

    ghost Value = { HeldSource };

    ghost view = { λ own. record { left = drop own.at own.bytes.items; failing = own.failing } };

    ghost invariant = { λ own. own.at ≤ length own.bytes.items };
}

impl MemSource {
    /// A source that has these bytes left, and was never read.
    pub fn new(alloc: Global, bytes: &[u8], fails: &[u64]) -> Result<MemSource, Memory>
        ensures left { IfOk result (λ source. source.left ≡ bytes.now) }
        ensures failing { IfOk result (λ source. source.failing
            ≡ record { fails = fails.now; calls = 0; faults = 0 }) }
    {
        let failing = FailingCalls::new(alloc, fails)?;
        let bytes = Vec::from_slice(alloc, bytes)?;
        Ok(MemSource {
            bytes,
            at: 0,
            failing,
        })
    }

    /// The bytes left.
    pub fn left(&self) -> &[u8]
        ensures { result.now ≡ self.now.left }
    {
        &self.bytes[self.at..]
    }
}

impl Source for MemSource {
    ghost left = { λ source. Some source.left };

    ghost faults = { λ source. source.failing.faults };

    ghost is_broken = { λ source. has_failed source.failing };

    /// Fails exactly where this call is one of those that are to fail. A line goes on after it only where no byte is left.
    fn read_piece(&mut self, line: &mut Line) -> Result<Piece, IoFault>
        requires whole { has_failed self.old.failing ≡ false }
        ensures broken { has_failed self.new.failing ≡ is_err result }
        ensures fails { is_err result ≡ fails_next self.old.failing }
        ensures whole { IfOk result (λ piece. piece ≡ Piece.Part → self.new.left ≡ []) }
        ensures ok { OnOk result (self.new.failing ≡ after_call self.old.failing) }
        ensures err { OnErr result (self.new.failing ≡ after_fault self.old.failing) }
        ensures gives { IfOk result (λ piece.
            GivesPiece piece line.old line.new (Some self.old.left) (Some self.new.left)) }
        ensures kept { OnErr result (Some self.new.left ≡ Some self.old.left) }
        ensures line_kept { OnErr result (line.new ≡ line.old) }
        ensures counted { OnErr result
            (FaultCountRose self.old.failing.faults self.new.failing.faults) }
        ensures uncounted { OnOk result (self.new.failing.faults ≡ self.old.failing.faults) }
        ensures never_falls { self.old.failing.faults ≤ self.new.failing.faults }
    {
        if self.failing.fails_next() {
            return Err(self.failing.count_fault());
        }
        self.failing.count_call();
        let (piece, count) = line.take_piece(&self.bytes[self.at..]);
        self.at += count;
        Ok(piece)
    }
}
