ghost use Rattle.std.specs.Prelude.{◌≡◌, ◌+◌, ◌≤◌, ◌++◌, length, take, drop, replicate, IfOk};

use crate::Memory;
use std::alloc::Global;
use std::marker::Model;

/// The 4,096 bytes of a block of a disk. Contracts see the list of the bytes.
#[derive(Drop)]
pub struct Block {
    bytes: Box<[u8; 4096]>,
}

impl Model for Block {
    ghost use Rattle.std.specs.Prelude.{◌≡◌, List, ℕ, length};

    ghost Value = { List ℕ };

    ghost view = { λ block. block.bytes.value };

    ghost invariant = { λ block. length block.bytes.value ≡ 4096 };
}

impl Block {
    /// How many bytes a block has.
    pub const BYTES: u32 = 4096;

    /// The block whose bytes are all zero.
    pub fn zero(alloc: Global) -> Result<Block, Memory>
        ensures zero { IfOk result (λ block. block ≡ replicate 4096 0) }
        ensures long { IfOk result (λ block. length block ≡ 4096) }
    {
        let bytes = Box::new(alloc, [0; 4096])?;
        Ok(Block { bytes })
    }

    /// The block's bytes.
    pub fn bytes(&self) -> &[u8]
        ensures bytes { result.now ≡ self.now }
        ensures long { length self.now ≡ 4096 }
        ensures size { length result.now ≡ 4096 }
    {
        self.bytes.as_slice()
    }

    /// Writes the bytes over those from a place on, which must end within the block. Every other byte stays.
    pub fn put(&mut self, at: u32, bytes: &[u8])
        requires { at + length bytes.now ≤ 4096 }
        ensures bytes { self.new
            ≡ take at self.old ++ bytes.now ++ drop (at + length bytes.now) self.old }
        ensures long { length self.old ≡ 4096 }
        ensures still_long { length self.new ≡ 4096 }
    {
        let at = at as usize;
        self.bytes[at..at + bytes.len()].copy_from_slice(bytes);
    }

    /// Gives this block the bytes of another.
    pub fn copy_from(&mut self, from: &Block)
        ensures same { self.new ≡ from.now }
        ensures long { length self.old ≡ 4096 }
        ensures source { length from.now ≡ 4096 }
    {
        *self.bytes = *from.bytes;
    }
}

#[cfg(test)]
mod tests {
    use super::*;
    use std::test::Fail;

    #[test]
    fn puts(rt: HostRuntime) -> Result<(), Fail> {
        let mut block = Block::zero(rt.alloc())?;
        block.put(4094, &[7, 8]);
        let mut copy = Block::zero(rt.alloc())?;
        copy.copy_from(&block);
        assert_eq!(rt; &copy.bytes()[4093..], [0, 7, 8].as_slice());
        Ok(())
    }
}
