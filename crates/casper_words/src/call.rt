use crate::{Page, Series};

/// What a call does: read or write one word, or note that a page was granted.
#[derive(Clone, Copy, Debug, PartialEq, Eq)]
pub enum Op {
    Read,
    Write,
    Touch,
}

/// One completed operation on one word of a page, with the value that was read or written.
#[derive(Clone, Copy, Debug, PartialEq, Eq)]
pub struct Call {
    pub op: Op,
    pub page: Page,
    pub word: u32,
    pub value: u64,
}

/// A list of calls.
pub type Calls = Series<Call>;
