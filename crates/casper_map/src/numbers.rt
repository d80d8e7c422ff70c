ghost use Rattle.std.specs.Prelude.{◌≡◌, ◌<◌, ◌^◌, length, All};
ghost use Rattle.casper_map.specs.Numbers.{no_frame, frame_in, number_of, block_of_numbers, numbers_of_block};

use casper_words::Block;

/// How many numbers a map block has.
pub(crate) const NUMBERS: usize = 1024;

/// The number that stands for no frame.
const NO_FRAME: u32 = 0xFFFF_FFFF;

/// The frame that a number stands for, or none.
pub(crate) fn frame_in(number: u32) -> Option<u32>
    ensures { result ≡ frame_in number }
{
    if number == NO_FRAME {
        None
    } else {
        Some(number)
    }
}

/// The number that stands for a frame or for none.
pub(crate) fn number_of(frame: Option<u16>) -> u32
    ensures { result ≡ number_of frame }
{
    match frame {
        Some(frame) => frame as u32,
        None => NO_FRAME,
    }
}

/// The numbers of a map block.
pub(crate) fn numbers_of(block: &Block) -> [u32; NUMBERS]
    ensures { result ≡ numbers_of_block block.now }
{
    let bytes = block.bytes();
    let mut numbers = [0; NUMBERS];
    for place in 0..NUMBERS {
        let mut piece = [0; 4];
        piece.copy_from_slice(&bytes[4 * place..4 * place + 4]);
        numbers[place] = u32::from_le_bytes(piece);
    }
    numbers
}

/// Fills a block with the numbers of a map block.
pub(crate) fn put_numbers(numbers: &[u32; NUMBERS], into: &mut Block)
    ensures { into.new ≡ block_of_numbers numbers.now }
{
    for (place, number) in numbers.iter().enumerate() {
        into.put(4 * place as u32, &number.to_le_bytes());
    }
}
