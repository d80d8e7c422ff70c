ghost use Rattle.std.specs.Prelude.{◌≡◌};
ghost use Rattle.casper_root.specs.Format.{header_fields, gate_fields, body_fields, zero_block};

use casper_rec::{Field, Rec};
use casper_words::Block;

/// The bytes of a block of zeros.
static ZEROS: [u8; 4096] = [0; 4096];

/// Makes each byte of a block zero.
pub(crate) fn clear(block: &mut Block)
    ensures { block.new ≡ zero_block }
{
    block.put(0, &ZEROS);
}

/// A table of fields, each by its offset and its width.
macro_rules! table {
    ($($offset:literal: $width:literal),* $(,)?) => {
        [$(Field { offset: $offset, width: $width }),*]
    };
}

const HEADER: [Field; 3] = table![0: 8, 8: 4, 12: 4];

const GATE: [Field; 1] = table![0: 8];

const BODY: [Field; 18] = table![
    0: 8, 8: 4,
    12: 4, 16: 4, 20: 4, 24: 4, 28: 4, 32: 4, 36: 4, 40: 4,
    44: 4, 48: 4, 52: 4, 56: 4, 60: 4, 64: 4, 68: 4, 72: 4,
];

/// The table of a header: its name, how many pages, how many frames.
pub(crate) fn header_rec() -> Rec<3>
    ensures { result ≡ header_fields }
{
    match Rec::new(HEADER) {
        Some(rec) => rec,
        None => unreachable!(),
    }
}

/// The table of a gate.
pub(crate) fn gate_rec() -> Rec<1>
    ensures { result ≡ gate_fields }
{
    match Rec::new(GATE) {
        Some(rec) => rec,
        None => unreachable!(),
    }
}

/// The table of a body: its sequence number, how many map blocks, their frame numbers.
pub(crate) fn body_rec() -> Rec<18>
    ensures { result ≡ body_fields }
{
    match Rec::new(BODY) {
        Some(rec) => rec,
        None => unreachable!(),
    }
}
