use casper_space::Answer;
use casper_words::NameList;

/// The answer to a line.
#[derive(Drop)]
pub enum ShellAnswer {
    /// A page of the line is page 0 or past the store's, or the word of a reference is past a page's.
    Range,
    /// The pages were not held. This is the answer of the hold.
    Refused(Answer),
    /// The field as a number.
    Value(u64),
    /// The line is done.
    Done,
    /// A word of a page: where the new object stands, or where the field or the name leads.
    At { page: u64, word: u32 },
    /// The page has no room for an object of that many fields.
    PageFull,
    /// The reference names no object.
    NoObject,
    /// The object has no field of that number.
    NoField,
    /// The field is no reference to a page of the store.
    NotARef,
    /// There are as many names as there can be.
    TableFull,
    /// The name leads nowhere.
    NoName,
    /// The names, in the order of their entries.
    Names(NameList),
}
