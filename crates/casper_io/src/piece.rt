/// What a source gave to a line.
#[derive(Clone, Copy, Debug, PartialEq, Eq)]
pub enum Piece {
    /// Bytes of the line, at least one, after which it may go on.
    Part,
    /// The rest of the line, which may be nothing, up to a newline, which was taken too.
    Rest,
    /// Bytes up to the 1,024th of the line, and a further one was taken, which is no newline.
    TooLong,
    /// Nothing: no byte is left.
    End,
}
