use casper_words::{Frame, Right};

/// What is held of a page: the right to it, and its words.
#[derive(Drop)]
pub struct Leaf {
    pub right: Right,
    pub words: Frame,
}
