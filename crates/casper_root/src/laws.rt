ghost use Rattle.casper_root.specs.FormatLaws.{HeadersAreRead, BodiesAreRead, GatesAreRead, OpenedAsWritten};
ghost use Rattle.casper_root.specs.Parts.{OpenedInTurn};

/// What is written is read, and a store that was written opens to its root, as the contract of a call that does nothing.
pub fn format_laws()
    ensures headers { HeadersAreRead }
    ensures bodies { BodiesAreRead }
    ensures gates { GatesAreRead }
    ensures opened { OpenedAsWritten }
{}

/// What blocks open to is their header and then their root, as the contract of a call that does nothing.
pub fn part_laws()
    ensures in_turn { OpenedInTurn }
{}
