/// A kind of call of a disk.
#[derive(Clone, Copy, Debug, PartialEq, Eq)]
pub enum Kind {
    Read,
    Write,
    Sync,
}

/// A call that is to fail. The calls of each kind are counted from 1.
#[derive(Clone, Copy, Debug, PartialEq, Eq)]
pub struct Fail {
    /// The kind of the call.
    pub kind: Kind,
    /// The number of the call among those of its kind.
    pub number: u64,
}

/// What a stop leaves in each loose block.
#[derive(Clone, Copy, Debug, PartialEq, Eq)]
pub enum Pick {
    /// The bytes that it had at the last sync that answered Ok.
    Old,
    /// The bytes last written.
    New,
    /// The first 2,048 of the bytes last written, and this byte in all places after them.
    Torn(u8),
}
