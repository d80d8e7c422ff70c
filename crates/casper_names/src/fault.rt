/// Why a name was not bound.
#[derive(Clone, Copy, Debug, PartialEq, Eq)]
pub enum NameFault {
    /// There are as many names as there can be.
    TableFull,
    /// The reference names no object.
    NoObject,
}
