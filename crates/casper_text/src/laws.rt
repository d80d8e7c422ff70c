ghost use Rattle.casper_text.specs.Laws.{LinesSplitOneWay, WordsHaveNoSpace, JoinedWordsAreReadBack, SpacesPartWords, NamesAreTheirBytes, NumbersAreReadBack, NumbersHaveOneText, ReferencesAreReadBack, ReferencesHaveOneText};

/// The laws of the words of a line, as contracts of a call that does nothing.
pub fn line_laws()
    ensures one_way { LinesSplitOneWay }
    ensures no_space { WordsHaveNoSpace }
    ensures joined { JoinedWordsAreReadBack }
    ensures parted { SpacesPartWords }
{}

/// The law of names, as the contract of a call that does nothing.
pub fn name_laws()
    ensures { NamesAreTheirBytes }
{}

/// The laws of numbers, as contracts of a call that does nothing.
pub fn number_laws()
    ensures read_back { NumbersAreReadBack }
    ensures one_text { NumbersHaveOneText }
{}

/// The laws of references, as contracts of a call that does nothing.
pub fn reference_laws()
    ensures read_back { ReferencesAreReadBack }
    ensures one_text { ReferencesHaveOneText }
{}
