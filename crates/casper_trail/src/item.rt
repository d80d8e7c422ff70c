use crate::{Entry, Mark};
use std::mem::size_of;

/// One place of a trail: an entry or a mark.
#[derive(Clone, Copy, Debug, PartialEq, Eq)]
pub enum Item {
    Entry(Entry),
    Mark(Mark),
}

// A trail of some four million items is kept in memory.
const _: () = prove!(size_of::<Item>() <= 32);
