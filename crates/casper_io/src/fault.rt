/// The answer of a read or a write that the outside did not carry out.
#[derive(Clone, Copy, Debug, PartialEq, Eq)]
pub enum IoFault {
    Failed,
}
