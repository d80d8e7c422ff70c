ghost use Rattle.casper_shell.specs.Grammar.{LinesAreReadBack, LinesHaveOneText};

/// A line on objects and names and its words determine each other. It does nothing.
pub fn line_laws()
    ensures read_back { LinesAreReadBack }
    ensures one_text { LinesHaveOneText }
{}
