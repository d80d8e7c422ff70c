ghost use Rattle.casper_turns.specs.GoodRuns.{EachStepIsGood, EveryRunIsGood, EveryRunIsRight};
ghost use Rattle.casper_turns.specs.GoodStates.{GoodBehindChange, GoodBehindTurn, RightBehindChange, RightBehindTurn, StartIsGood, StartIsRight};
ghost use Rattle.casper_turns.specs.HitLaws.{ReadHitIsRight, ReadHitKeeps, WriteHitIsRight, WriteHitKeeps};
ghost use Rattle.casper_turns.specs.MarkRoom.{ChangesRecordNoMore, TurnsRecordNoMark, VanishRecordsNoMore};
ghost use Rattle.casper_turns.specs.Relying.{ApartAgain, ApartItself, GoodWhileApart, HeldImageWhileStill, ImageWhileStill, JobWhileStill, OpenWritesWhileStill, RightWhileApart, StillAgain, StillItself};
ghost use Rattle.casper_turns.specs.StageLaws.{EachStageGoesOn, EachStageKeeps, KeptAgain, LeavingKeeps, TellingKeeps};
ghost use Rattle.casper_turns.specs.TurnLaws.{EachChangeKeeps, EachTurnKeeps, EachTurnLeavesOthers, FinishLeavesOtherLeads, LossIsStill, SettleLeavesOtherLeads, StartsGood, StartsGoodWithEach, VanishKeeps};

/// A session begins with a good shared part, also with the own part of each client. It does nothing.
pub fn law_of_start()
    ensures shared { StartsGood }
    ensures each { StartsGoodWithEach }
{}

/// Every turn of a client keeps the shared part good, also with the own part that it changed: a join, an acquire of any pages with
/// room for any number of calls, a serve, a stabilise, a departure and a vanishing. What any other client may rely on stands, nothing
/// is committed, and where the trail was legal over an array and the client's pending reads were right, they are so after it. But
/// for a vanishing, what is known to all of the other clients stays as it is. It does nothing.
pub fn law_of_turns()
    ensures kept { EachTurnKeeps }
    ensures others { EachTurnLeavesOthers }
    ensures vanish { VanishKeeps }
{}

/// A turn is made of stages, and each keeps what a turn keeps: the calls are recorded and the cap topped up, pages are given up to the
/// asks of others, pages are handed in to a gathering, wants are granted or refused, the association is frozen. After each the client is
/// live, not fallen, and has nothing pending. So does the telling of a fallen client, and the last stage of one that leaves. What one
/// stage keeps and the next one keeps, both keep together. It does nothing.
pub fn law_of_stages()
    ensures kept { EachStageKeeps }
    ensures way { EachStageGoesOn }
    ensures told { TellingKeeps }
    ensures left { LeavingKeeps }
    ensures again { KeptAgain }
{}

/// What is no turn of a client keeps the shared part good: a client is declared lost, a write-out is finished with any outcome, the
/// vault settles. What each client may rely on stands, and a legal trail stays legal. By a loss nothing is committed. A finish and a
/// settle leave every association of another lead that is sealed or in doubt: its phase, its members, their open entries, and no write
/// of one is added. None but the association that is finished comes into doubt. The premise of a finish is that the association is not
/// gathering. It does nothing.
pub fn law_of_changes()
    ensures kept { EachChangeKeeps }
    ensures loss { LossIsStill }
    ensures finish { FinishLeavesOtherLeads }
    ensures settle { SettleLeavesOtherLeads }
{}

/// A hit keeps what is good of a shared part with its client's own part, and the pending reads right, where a read gives the value
/// that its client sees. It does nothing.
pub fn law_of_hits()
    ensures read { ReadHitKeeps }
    ensures write { WriteHitKeeps }
    ensures right { ReadHitIsRight }
    ensures silent { WriteHitIsRight }
{}

/// What a client may rely on while others act stands while nothing happens, and while one thing happens after another. It keeps the
/// client's own part good with the shared part, and its pending reads right. It does nothing.
pub fn law_of_others()
    ensures itself { ApartItself }
    ensures again { ApartAgain }
    ensures good { GoodWhileApart }
    ensures right { RightWhileApart }
{}

/// Nothing is committed while nothing happens, and while one thing happens after another. So the stable image stands; and for each
/// association that is sealed or in doubt the image with it, its open writes, and the pages of its job. It does nothing.
pub fn law_of_images_between_commits()
    ensures itself { StillItself }
    ensures again { StillAgain }
    ensures stable { ImageWhileStill }
    ensures held { HeldImageWhileStill }
    ensures writes { OpenWritesWhileStill }
    ensures job { JobWhileStill }
{}

/// A state is good where its shared part is, also with each own part. A session begins so, and so is the state after each turn of a
/// client and each change that is no turn. The same holds of a trail that is legal and pending reads that are right over the array that
/// the session found. It does nothing.
pub fn law_of_good_states()
    ensures start { StartIsGood }
    ensures turn { GoodBehindTurn }
    ensures change { GoodBehindChange }
    ensures start_right { StartIsRight }
    ensures turn_right { RightBehindTurn }
    ensures change_right { RightBehindChange }
{}

/// At every moment of every run the state is good, and an unfinished write-out is of a sealed association. The trail is legal over the
/// array that the session found, and the pending reads of each client that is not fallen are right. It does nothing.
pub fn law_of_good_runs()
    ensures step { EachStepIsGood }
    ensures run { EveryRunIsGood }
    ensures right { EveryRunIsRight }
{}

/// One mark is due for each live client that is not fallen, and one for each stabilisation. A turn of a client records none, so it may
/// first make room for the marks that are due after it. What is no turn of one, and a vanishing, records no more marks than it leaves
/// fewer due: so where there was room for the marks that are due, no finish, settle or loss needs memory for one. It does nothing.
pub fn law_of_marks_due()
    ensures turns { TurnsRecordNoMark }
    ensures changes { ChangesRecordNoMore }
    ensures vanish { VanishRecordsNoMore }
{}
