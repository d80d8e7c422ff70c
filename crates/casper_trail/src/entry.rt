use casper_words::{Op, Page, Who};

/// One recorded operation of a client on one word of a page. A touch notes that the page was granted.
#[derive(Clone, Copy, Debug, PartialEq, Eq)]
pub struct Entry {
    pub who: Who,
    pub op: Op,
    pub page: Page,
    pub word: u32,
    pub value: u64,
}
