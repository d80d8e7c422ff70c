ghost use Rattle.std.specs.Prelude.{◌≡◌, ◌+◌, ◌<◌, ◌≤◌, ◌&&◌, nat_lt, cond, find, not, ◌==◌, option_map};
ghost use Rattle.casper_heap.specs.Walk.{end_of, block_if, fields_in, first_free, end_after};

/// A block of a page: the place of its header, its number of fields, and whether it is live.
#[derive(Clone, Copy, Debug, Default, PartialEq, Eq)]
pub(crate) struct HeapBlock {
    pub place: u32,
    pub fields: u32,
    pub live: bool,
}

impl HeapBlock {
    /// The block that a header makes at a place, where the header is valid and the block ends at or before the end.
    pub(crate) fn new(header: u64, place: u32, end: u32) -> Option<HeapBlock>
        requires within { end ≤ 512 }
        requires before { place < end }
        ensures { result ≡ block_if header place end }
    {
        let fields = (header % 256) as u32;
        let kind = header / 256;
        if !(1..=64).contains(&fields) || kind > 1 || place + fields + 2 > end {
            return None;
        }
        Some(HeapBlock {
            place,
            fields,
            live: kind == 1,
        })
    }

    /// The place after the block.
    pub(crate) fn end(&self) -> u32
        requires fields { self.now.fields ≤ 64 }
        requires place { self.now.place ≤ 512 }
        ensures { result ≡ self.now.place + self.now.fields + 2 }
    {
        self.place + self.fields + 2
    }
}
