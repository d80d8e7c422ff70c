ghost use Rattle.casper_sessions.specs.ChainRows.{MomentsOfAWriteOut, DoubtFoundOld, DoubtFoundNew};
ghost use Rattle.casper_sessions.specs.Within.{EachStopIsAfterSome, EachRunLeavesAClosedPart};
ghost use Rattle.casper_sessions.specs.StopLaws.{EachStopIsOfItsMoment, EachWriteOutIsOfItsMoment, EachStopLeavesAClosedPart, EachOpeningFindsAClosedPart, EachChainGoesOn};

/// At every moment of every session a stop leaves the stable image where no write-out is undecided, that or the image with the
/// association of its lead while one runs or is in doubt, and the latter alone from its Ok to its finish. Each of them is the array
/// of a part of the history that has every cause of what it has, and everything stable. It does nothing.
pub fn law_of_stops()
    ensures moment { EachStopIsOfItsMoment }
    ensures write_out { EachWriteOutIsOfItsMoment }
    ensures closed { EachStopLeavesAClosedPart }
{}

/// Each session of a chain begins over an array of as many pages with nothing in doubt, which is the array of such a part of the
/// history of the session before. So what holds of every session holds of each session of a chain. It does nothing.
pub fn law_of_chains()
    ensures opening { EachOpeningFindsAClosedPart }
    ensures goes_on { EachChainGoesOn }
{}

/// What a stop within a run leaves, also within a call of the vault, is left at a moment after some of its steps. So it is the array of a
/// closed part, with everything stable, of the history as it was then, whose marks the run goes on to have. It does nothing.
pub fn law_of_runs()
    ensures some { EachStopIsAfterSome }
    ensures closed { EachRunLeavesAClosedPart }
{}

/// Two sessions worked out, with a doubt between them. It does nothing.
pub fn rows_of_chains()
    ensures moments { MomentsOfAWriteOut }
    ensures found_old { DoubtFoundOld }
    ensures found_new { DoubtFoundNew }
{}
