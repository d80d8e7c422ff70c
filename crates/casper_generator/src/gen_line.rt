use casper_words::{Page, Who};

/// One line of a generated schedule.
#[derive(Clone, Copy, Debug, PartialEq, Eq)]
pub enum GenLine {
    /// A client joins.
    Join(Who),
    /// A client reads a word of a page.
    Read(Who, Page, u32),
    /// A client writes a value to a word of a page.
    Write(Who, Page, u32, u64),
    /// A client serves.
    Serve(Who),
    /// A client stabilises its association.
    Stabilise(Who),
    /// The association of this lead is written out.
    WriteOut(Who),
    /// The write-out of this lead is finished.
    Finish(Who),
}
