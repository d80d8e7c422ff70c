ghost use Rattle.casper_audit.specs.Statements.{TextsAreReadBack};
ghost use Rattle.casper_audit.specs.Written.{ItemsAreReadBack, BaseWordsAreReadBack};

/// The words of the line of each item, and of each word before the trail, say that item and that word. Lines that say words, rising,
/// and then items, are a text with these words and these items. It does nothing.
pub fn text_laws()
    ensures items { ItemsAreReadBack }
    ensures base { BaseWordsAreReadBack }
    ensures texts { TextsAreReadBack }
{}
