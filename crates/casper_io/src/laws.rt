ghost use Rattle.casper_io.specs.Lines.{EachIsCutOnce};

/// Bytes determine their lines: each list of bytes has a next line, an end or too long a line at its front, and two ways
/// to take it agree in the answer, in the line, and in the bytes left.
pub fn each_is_cut_once()
    ensures { EachIsCutOnce }
{}
