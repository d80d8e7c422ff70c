ghost use Rattle.std.specs.Prelude.{◌≡◌, ℕ, ◌≤◌, ◌↔◌, List, [], Some, drop, length, IsTrue, IfOk};
ghost use Rattle.casper_io.specs.Piece.{GivesPiece};

use crate::Piece;
use crate::spare::push_all;
use casper_words::Memory;
use memchr::memchr;
use std::alloc::Global;
use std::marker::Model;

/// The bytes of one line, without its newline: at most 1,024. Contracts see the list of the bytes.
#[derive(Drop)]
pub struct Line {
    bytes: Vec<u8>,
}

impl Model for Line {
    ghost use Rattle.std.specs.Prelude.{ℕ, List, length, vec_capacity, ◌≤◌};

    ghost Value = { List ℕ };

    ghost view = { λ line. line.bytes.items };

    ghost invariant = { λ line. (length line.bytes.items ≤ 1024) × (1024 ≤ vec_capacity line.bytes) };
}

impl Line {
    /// The greatest number of bytes in a line.
    pub const MOST: usize = 1024;

    /// The empty line, with room for 1,024 bytes.
    pub fn new(alloc: Global) -> Result<Line, Memory>
        ensures { IfOk result (λ line. line ≡ []) }
    {
        let bytes = Vec::with_capacity(alloc, Line::MOST)?;
        Ok(Line { bytes })
    }

    /// The line's bytes.
    pub fn bytes(&self) -> &[u8]
        ensures bytes { result.now ≡ self.now }
        ensures short { length result.now ≤ 1024 }
    {
        self.bytes.as_slice()
    }

    /// Replaces the line's bytes. It takes no memory.
    pub fn set(&mut self, bytes: &[u8])
        requires { length bytes.now ≤ 1024 }
        ensures { self.new ≡ bytes.now }
    {
        self.bytes.clear();
        push_all(&mut self.bytes, bytes);
    }

    pub(crate) fn is_empty(&self) -> bool
        ensures { IsTrue result ↔ (self.now ≡ []) }
    {
        self.bytes.is_empty()
    }

    pub(crate) fn clear(&mut self)
        ensures { self.new ≡ [] }
    {
        self.bytes.clear();
    }

    /// Adds the bytes up to the next newline, of those that have a place, and tells what that came to, and how many of the
    /// bytes were taken.
    pub(crate) fn take_piece(&mut self, bytes: &[u8]) -> (Piece, usize)
        ensures gives { GivesPiece result.0 self.old self.new (Some bytes.now)
            (Some (drop result.1 bytes.now)) }
        ensures whole { result.0 ≡ Piece.Part → result.1 ≡ length bytes.now }
        ensures count { result.1 ≤ length bytes.now }
    {
        let room = Line::MOST - self.bytes.len();
        let reach = bytes.len().min(room + 1);
        match memchr(b'\n', &bytes[..reach]) {
            Some(at) => {
                push_all(&mut self.bytes, &bytes[..at]);
                (Piece::Rest, at + 1)
            }
            None if reach > room => {
                push_all(&mut self.bytes, &bytes[..room]);
                (Piece::TooLong, reach)
            }
            None if reach == 0 => (Piece::End, 0),
            None => {
                push_all(&mut self.bytes, bytes);
                (Piece::Part, reach)
            }
        }
    }
}
