ghost use Rattle.std.specs.Prelude.{◌≡◌, [], length, replicate, IfOk};

use crate::Words;
use casper_words::{Call, Calls, Frame, Memory, Op, Page};
use std::alloc::Global;
use std::marker::Model;

/// Pages in memory, all of them held for writing.
#[derive(Drop)]
pub struct Plain {
    frames: Vec<Frame>,
    calls: Calls,
    left: u32,
}

impl Model for Plain {
    ghost use Rattle.std.specs.Prelude.{◌≤◌};
    ghost use Rattle.casper_space.specs.Plain.{PlainPages};

    ghost Value = { PlainPages };

    ghost view = { λ plain. record { pages = plain.frames.items; calls = plain.calls.items; room = plain.left } };

    ghost invariant = { λ plain. plain.left ≤ plain.calls.room };
}

impl Plain {
    /// As many pages of zeros, with no call made and room for so many calls.
    pub fn new(alloc: Global, pages: u32, room: u32) -> Result<Plain, Memory>
        ensures pages { IfOk result (λ plain. plain.pages ≡ replicate pages (replicate 512 0)) }
        ensures calls { IfOk result (λ plain. plain.calls ≡ []) }
        ensures room { IfOk result (λ plain. plain.room ≡ room) }
    {
        let mut frames = Vec::with_capacity(alloc, pages as usize)?;
        for _ in 0..pages {
            frames.push(Frame::zero(alloc)?)?;
        }
        let mut calls = Calls::new(alloc);
        calls.reserve(room)?;
        Ok(Plain {
            frames,
            calls,
            left: room,
        })
    }

    /// How many pages there are.
    pub fn pages(&self) -> usize
        ensures { result ≡ length self.now.pages }
    {
        self.frames.len()
    }

    /// How many more calls there is room for.
    pub fn room(&self) -> u32
        ensures { result ≡ self.now.room }
    {
        self.left
    }

    /// The calls made, in order.
    pub fn calls(&self) -> &[Call]
        ensures { result.now ≡ self.now.calls }
    {
        self.calls.as_slice()
    }
}

impl Words for Plain {
    ghost use Rattle.casper_space.specs.Plain.{seen_of_plain, PlainStep};

    ghost seen = { seen_of_plain };

    ghost step = { PlainStep };

    fn get(&mut self, page: Page, word: u32) -> u64 {
        let value = self.frames[page.0 as usize].get(word);
        let call = Call {
            op: Op::Read,
            page,
            word,
            value,
        };
        let _ = self.calls.push(call);
        self.left -= 1;
        value
    }

    fn set(&mut self, page: Page, word: u32, value: u64) {
        self.frames[page.0 as usize].set(word, value);
        let call = Call {
            op: Op::Write,
            page,
            word,
            value,
        };
        let _ = self.calls.push(call);
        self.left -= 1;
    }
}

#[cfg(test)]
mod tests {
    use super::*;
    use std::test::Fail;

    #[test]
    fn words_stay_and_calls_are_noted(rt: HostRuntime) -> Result<(), Fail> {
        let mut plain = Plain::new(rt.alloc(), 2, 3)?;
        assert_eq!(rt; plain.pages(), 2);
        assert_eq!(rt; plain.room(), 3);
        plain.set(Page(1), 511, 7);
        assert_eq!(rt; plain.get(Page(1), 511), 7);
        assert_eq!(rt; plain.get(Page(0), 511), 0);
        let calls = [(Op::Write, 1, 7), (Op::Read, 1, 7), (Op::Read, 0, 0)];
        assert_eq!(rt; plain.calls().len(), calls.len());
        for (call, (op, page, value)) in plain.calls().iter().zip(calls) {
            assert_eq!(rt;
                (call.op, call.page, call.word, call.value),
                (op, Page(page), 511, value)
            );
        }
        Ok(())
    }
}
