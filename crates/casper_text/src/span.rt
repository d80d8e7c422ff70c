ghost use Rattle.std.specs.Prelude.{◌≡◌};
ghost use Rattle.casper_text.specs.Span.{IsWithin, word_at};

/// The place of a word in a line: from the byte `from` up to the byte `to`, which is not part of it.
#[derive(Clone, Copy, Debug, PartialEq, Eq)]
pub struct Span {
    pub from: usize,
    pub to: usize,
}

impl Span {
    /// The word of a line at this place.
    pub fn of<'a>(&self, line: &'a [u8]) -> &'a [u8]
        requires { IsWithin line.now self.now }
        ensures { result.now ≡ word_at line.now self.now }
    {
        &line[self.from..self.to]
    }
}
