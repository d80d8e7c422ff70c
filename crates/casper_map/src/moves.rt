ghost use Rattle.std.specs.Prelude.{◌≡◌, length, IfOk};
ghost use Rattle.casper_map.specs.Planned.{moved, frames_in};

use casper_words::Memory;
use std::alloc::Global;
use std::marker::Model;

/// Pages or map blocks with their new frames. Both numbers fit 16 bits, so that a store in doubt of all its pages stays small.
/// Contracts see the list of the pairs.
#[derive(Drop)]
pub struct Moves {
    list: Vec<(u16, u16)>,
}

impl Model for Moves {
    ghost use Rattle.std.specs.Prelude.{List, ℕ};

    ghost Value = { List (ℕ × ℕ) };

    ghost view = { λ moves. moves.list.items };
}

impl Moves {
    /// Moves each of these to the frame at its place.
    pub(crate) fn new(alloc: Global, targets: &[u16], frames: &[u16]) -> Result<Moves, Memory>
        requires { length targets.now ≡ length frames.now }
        ensures moved { IfOk result (λ moves. moved moves ≡ targets.now) }
        ensures frames { IfOk result (λ moves. frames_in moves ≡ frames.now) }
    {
        let mut list = Vec::with_capacity(alloc, targets.len())?;
        for (at, target) in targets.iter().enumerate() {
            list.push((*target, frames[at]))?;
        }
        Ok(Moves { list })
    }

    /// The pairs, in rising order of what moves.
    pub fn as_slice(&self) -> &[(u16, u16)]
        ensures { result.now ≡ self.now }
    {
        self.list.as_slice()
    }
}
