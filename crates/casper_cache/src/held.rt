use casper_words::{Frame, Page, Right};

/// A page that is held, with its right and its words.
#[derive(Drop)]
pub struct Held {
    pub page: Page,
    pub right: Right,
    pub words: Frame,
}
