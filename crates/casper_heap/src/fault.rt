/// Why a call on an object was refused.
#[derive(Clone, Copy, Debug, PartialEq, Eq)]
pub enum HeapFault {
    /// The reference names no object.
    NoObject,
    /// The object has no field of that number.
    NoField,
    /// The field is no reference to a page of the store.
    NotARef,
}

/// The page has no room for an object of that many fields.
#[derive(Clone, Copy, Debug, PartialEq, Eq)]
pub struct PageFull;
