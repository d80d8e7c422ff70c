ghost use Rattle.std.specs.Prelude.{◌≡◌, ◌||◌, ℕ, ◌+◌, ◌<◌, ◌≤◌, List, [], ◌++◌, Option, Some, Bool, false, nat_lt, length, take, is_err, IfOk, OnOk, OnErr};
ghost use Rattle.std.specs.Io.KnownBytes.{append_known};
ghost use Rattle.casper_words.specs.Count.{FaultCountRose};
ghost use Rattle.casper_io.specs.Memory.{fails_next, has_failed, after_call, after_fault};

use crate::failing::FailingCalls;
use crate::spare::push_all;
use crate::{IoFault, Sink};
use casper_words::Memory;
use std::alloc::Global;
use std::marker::Model;

/// A sink over memory, which tells the bytes that it has taken. It takes as many as it has room for. The calls that are to
/// fail are given by their numbers, counted from 1.
#[derive(Drop)]
pub struct MemSink {
    bytes: Vec<u8>,
    room: usize,
    failing: FailingCalls,
}

impl Model for MemSink {
    ghost use Rattle.std.specs.Prelude.{◌≤◌, length, vec_capacity};
    ghost use Rattle.casper_io.specs.Memory.{HeldSink};

    ghost Value = { HeldSink };

    ghost view = { λ own. record { taken = own.bytes.items; room = own.room; failing = own.failing } };

    ghost invariant = { λ own. (length own.bytes.items ≤ own.room) × (own.room ≤ vec_capacity own.bytes) };
}

impl MemSink {
    /// A sink that has taken nothing, was never written to, and has room for `room` bytes in all.
    pub fn new(alloc: Global, room: u32, fails: &[u64]) -> Result<MemSink, Memory>
        ensures taken { IfOk result (λ sink. sink.taken ≡ []) }
        ensures room { IfOk result (λ sink. sink.room ≡ room) }
        ensures failing { IfOk result (λ sink. sink.failing
            ≡ record { fails = fails.now; calls = 0; faults = 0 }) }
    {
        let failing = FailingCalls::new(alloc, fails)?;
        let room = room as usize;
        let bytes = Vec::with_capacity(alloc, room)?;
        Ok(MemSink {
            bytes,
            room,
            failing,
        })
    }

    /// The bytes taken.
    pub fn bytes(&self) -> &[u8]
        ensures { result.now ≡ self.now.taken }
    {
        self.bytes.as_slice()
    }
}

impl Sink for MemSink {
    ghost taken = { λ sink. Some sink.taken };

    ghost faults = { λ sink. sink.failing.faults };

    ghost is_broken = { λ sink. has_failed sink.failing };

    /// Fails exactly where this call is one of those that are to fail or the piece is longer than the room that is left, and
    /// else takes the whole piece.
    fn write(&mut self, from: &[u8]) -> Result<usize, IoFault>
        requires whole { has_failed self.old.failing ≡ false }
        ensures broken { has_failed self.new.failing ≡ is_err result }
        ensures fails { is_err result ≡ (fails_next self.old.failing
            || nat_lt self.old.room (length self.old.taken + length from.now)) }
        ensures whole { IfOk result (λ count. count ≡ length from.now) }
        ensures room { self.new.room ≡ self.old.room }
        ensures ok { OnOk result (self.new.failing ≡ after_call self.old.failing) }
        ensures err { OnErr result (self.new.failing ≡ after_fault self.old.failing) }
        ensures count { IfOk result (λ count. count ≤ length from.now) }
        ensures moves { IfOk result (λ count. 0 < length from.now → 0 < count) }
        ensures moved { IfOk result (λ count. Some self.new.taken
            ≡ append_known (Some self.old.taken) (take count from.now)) }
        ensures kept { OnErr result (Some self.new.taken ≡ Some self.old.taken) }
        ensures counted { OnErr result
            (FaultCountRose self.old.failing.faults self.new.failing.faults) }
        ensures uncounted { OnOk result (self.new.failing.faults ≡ self.old.failing.faults) }
        ensures never_falls { self.old.failing.faults ≤ self.new.failing.faults }
    {
        if self.failing.fails_next() || from.len() > self.room - self.bytes.len() {
            return Err(self.failing.count_fault());
        }
        self.failing.count_call();
        push_all(&mut self.bytes, from);
        Ok(from.len())
    }
}

#[cfg(test)]
mod tests {
    use super::*;
    use crate::put_all;
    use std::test::Fail;

    #[test]
    fn the_second_write_fails(rt: HostRuntime) -> Result<(), Fail> {
        let mut sink = MemSink::new(rt.alloc(), 4, &[2])?;
        assert_eq!(rt; put_all(&mut sink, b"ab"), Ok(()));
        assert_eq!(rt; put_all(&mut sink, b"c"), Err(IoFault::Failed));
        assert_eq!(rt; sink.bytes(), b"ab".as_slice());
        Ok(())
    }

    #[test]
    fn a_full_sink_fails(rt: HostRuntime) -> Result<(), Fail> {
        let mut sink = MemSink::new(rt.alloc(), 4, &[])?;
        assert_eq!(rt; put_all(&mut sink, b"abcd"), Ok(()));
        assert_eq!(rt; put_all(&mut sink, b"e"), Err(IoFault::Failed));
        assert_eq!(rt; sink.bytes(), b"abcd".as_slice());
        Ok(())
    }
}
