ghost use Rattle.casper_app.specs.CommandLaws.{WordsAreSorted};
ghost use Rattle.casper_app.specs.Grammar.{LinesAreReadBack, LinesHaveOneText};
ghost use Rattle.casper_app.specs.LineLaws.{LinesAreSorted};
ghost use Rattle.casper_app.specs.Machine.{UnfailingSessions, LinesNameClients, SessionsAreLegal, SessionsKeepCalls, SessionsKeepCallsButDropped};
ghost use Rattle.casper_app.specs.LeavingLaws.{EachStopInAScheduleLeavesAClosedPart};
ghost use Rattle.casper_app.specs.Chain.{PlaysAreSessions, PlayedSessionsAreAChain};

/// The lines of a schedule and what they ask for determine each other. Each line is one of these and no other: it is skipped, as a
/// comment or without a word; it has the words of an event, or of a reopen; it has those of neither and begins with a client's number;
/// or it is bad. The words of each command are told exactly, and each list of words is that of a command, or of one that is not built
/// yet, or is no command. It does nothing.
pub fn schedule_laws()
    ensures read_back { LinesAreReadBack }
    ensures one_text { LinesHaveOneText }
    ensures sorted { LinesAreSorted }
    ensures commands { WordsAreSorted }
{}

/// A session is the machine's run, with what the outside did read off the answers: where no answer tells of a fault, the answers and
/// the state are those when nothing fails. What lines ask for names clients; so over every vault the trail is legal over the array
/// that the opening found, and with all pending calls after it. A client's recorded calls and then its pending ones are those
/// that the answers complete, in their order, unless it is answered that it was rolled back, or vanishes; and where it is, then but
/// those that were pending when it was told so or vanished. It does nothing.
pub fn session_laws()
    ensures machine { UnfailingSessions }
    ensures clients { LinesNameClients }
    ensures legal { SessionsAreLegal }
    ensures calls { SessionsKeepCalls }
    ensures dropped { SessionsKeepCallsButDropped }
{}

/// What is asked for and answered, with reopens in between, is that of sessions, of which each is the machine's and begins with what the
/// opening before it found; and the marks that are counted are those of all their trails. Such sessions are a chain. It does nothing.
pub fn chain_laws()
    ensures sessions { PlaysAreSessions }
    ensures chain { PlayedSessionsAreAChain }
{}

/// Over an array with nothing in doubt, what a stop in a schedule of clients leaves is the array of a part of the history of the session that
/// it ends, as its trail was then. The part has every cause of what it has, and everything stable. It does nothing.
pub fn leaving_laws()
    ensures closed { EachStopInAScheduleLeavesAClosedPart }
{}
