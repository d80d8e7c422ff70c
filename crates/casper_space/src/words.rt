ghost use Rattle.std.specs.Prelude.{◌≡◌, ◌+◌, ◌<◌, [], ◌∷◌, ◌++◌, length, slice_index, Some, IsSome};
ghost use Rattle.casper_words.specs.declared.page.Right.{Right};
ghost use Rattle.casper_words.specs.declared.call.Call.{Call};
ghost use Rattle.casper_space.specs.WordCalls.{HeldWords, read_of, write_of, with_word};

use casper_words::Page;

/// The words of pages that are held, read and written one at a time.
///
/// Each call is noted, in order, and there is room for a number of calls. Each implementation says what one call does to its values,
/// and each of its calls does that and nothing else. No call takes memory.
pub trait Words {
    // The held pages with their rights and words, the calls made, and the room left.
    ghost seen: { Self → HeldWords };

    // What one call does: the value before, the call with its answer, the value after.
    ghost step: { Self → Call → Self → Type 0 };

    /// The word at a place of a page that is held with any right.
    fn get(&mut self, page: Page, word: u32) -> u64
        requires held { IsSome ((seen self.old).right page) }
        requires within { word < 512 }
        requires room { 0 < (seen self.old).room }
        ensures word { result ≡ slice_index ((seen self.old).words page) word }
        ensures long { length ((seen self.old).words page) ≡ 512 }
        ensures right { (seen self.new).right ≡ (seen self.old).right }
        ensures words { (seen self.new).words ≡ (seen self.old).words }
        ensures made { (seen self.new).calls
            ≡ (seen self.old).calls ++ read_of page word result ∷ [] }
        ensures left { (seen self.old).room ≡ (seen self.new).room + 1 }
        ensures step { step self.old (read_of page word result) self.new };

    /// Sets the word at a place of a page that is held for writing. Every other word stays.
    fn set(&mut self, page: Page, word: u32, value: u64)
        requires held { (seen self.old).right page ≡ Some Right.Write }
        requires within { word < 512 }
        requires room { 0 < (seen self.old).room }
        ensures words { (seen self.new).words ≡ with_word (seen self.old).words page word value }
        ensures long { length ((seen self.old).words page) ≡ 512 }
        ensures right { (seen self.new).right ≡ (seen self.old).right }
        ensures made { (seen self.new).calls
            ≡ (seen self.old).calls ++ write_of page word value ∷ [] }
        ensures left { (seen self.old).room ≡ (seen self.new).room + 1 }
        ensures step { step self.old (write_of page word value) self.new };
}
