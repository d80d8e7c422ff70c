ghost use Rattle.casper_generator.specs.Examples.{FirstWordsOfZero, LinesOfZero};

/// The words and the schedule of seed 0, as contracts of a call that does nothing.
pub fn examples()
    ensures words { FirstWordsOfZero }
    ensures lines { LinesOfZero }
{}
