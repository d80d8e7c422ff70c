ghost use Rattle.std.specs.Prelude.{◌≡◌, List, ℕ};
ghost use Rattle.std.specs.String.{string_bytes};

use std::marker::Model;

/// A text. Contracts see the list of its bytes.
#[derive(Drop)]
pub struct Word {
    text: String,
}

impl Model for Word {
    ghost Value = { List ℕ };

    ghost view = { λ word. string_bytes word.text };
}

impl Word {
    /// The text as a word. It takes no memory.
    pub fn new(text: String) -> Word
        ensures { result ≡ string_bytes text }
    {
        Word { text }
    }

    /// The text of the word.
    pub fn text(&self) -> &str
        ensures { result.now ≡ self.now }
    {
        self.text.as_str()
    }

    /// Gives the text back. It takes no memory.
    pub fn into_text(self) -> String
        ensures { string_bytes result ≡ self }
    {
        let Word { text } = self;
        text
    }
}

#[cfg(test)]
mod tests {
    use super::*;
    use std::test::Fail;

    #[test]
    fn a_word_keeps_its_text(rt: HostRuntime) -> Result<(), Fail> {
        let word = Word::new(format!(in rt.alloc(); "find {}", 7)?);
        assert_eq!(rt; word.text(), "find 7");
        assert_eq!(rt; word.into_text().as_str(), "find 7");
        Ok(())
    }
}
