use casper_words::{Name, Page, Ref};

/// One line on objects and names. Fields of an object are counted from 0.
#[derive(Clone, Copy, Debug, PartialEq, Eq)]
pub enum ShellLine {
    /// Makes an object of so many fields, 1 to 64.
    New { page: Page, n: u32 },
    /// Makes a field a number.
    Set { r: Ref, i: u32, v: u64 },
    /// Makes a field a reference to an object.
    SetRef { r: Ref, i: u32, to: Ref },
    /// Reads a field as a number.
    Get { r: Ref, i: u32 },
    /// Tells where a field leads.
    Follow { r: Ref, i: u32 },
    /// Frees an object.
    Free { r: Ref },
    /// Lets a name lead to an object.
    Bind { name: Name, r: Ref },
    /// Takes a name out of the table.
    Unbind { name: Name },
    /// Tells where a name leads.
    Find { name: Name },
    /// Lists the names.
    Names,
}
