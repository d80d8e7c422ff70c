ghost use Rattle.casper_answers.specs.Aftermath.{EachLeftClientIsAbsent, EachLiveClientStays, EachPendingAcquireAsks, EachOtherAcquireAsksNothing, EachAskIsLeftByOthers, EachCapIsAtMost, EachVaultIsLeft};
ghost use Rattle.casper_answers.specs.Lives.{EachStabilisationEndsOnlySo, EachMemberStays, EachSealedOneStaysSo, EachDoubtStands, EachAwaitedOneIsAMember, EachGatheringAwaits};
ghost use Rattle.casper_answers.specs.AcquireCauses.{EachInDoubtHasItsCause, EachFrozenHasItsCause, EachPendingHasItsCause, EachTrailFullHasItsCause, EachDiskHasItsCause, EachIsGrantedWhereNothingHinders, EachFreeAcquireIsGranted, EachGrantIsOfTheFree};
ghost use Rattle.casper_answers.specs.StabiliseCauses.{EachGatheringHasItsCause, EachSealedHasItsCause, EachDoingHasItsCause, EachFullJoinHasItsCause, EachJoinsWhereThereIsRoom};
ghost use Rattle.casper_answers.specs.WriteOutCauses.{EachNoJobIsExact, EachVaultIsExact, EachWornHasItsCause, EachFullHasItsCause, EachFaultIsOfTheOutside, EachWrittenIsTheVersion, EachIsWrittenWhereItCan, EachFinishIsAsItEnded, EachSettleIsOfADoubt};
ghost use Rattle.casper_answers.specs.Losses.{EachRollbackIsOfALoss, EachLossSparesTheOthers, EachLossEndsItsOwn, EachLossFellsItsAssociation, EachFallIsOfALoss, EachFallenClientIsMarked, EachToldFallIsTrue, EachToldClientIsUp, EachFallenClientIsTold, EachNoteIsOfALoss, EachFirstNoteStays, EachAnsweredNoteIsMade, NoGatheringHasANote, EachVanishingIsToldTruly, EachLossIsToldTruly};
ghost use Rattle.casper_answers.specs.Acknowledgement.{EachKeptCommitIsTrue, EachStabiliseTellsTheKept, EachStabiliseTellsOnlyTheKept, EachToldCommitIsTrue, EachFinishedCommitHasItsMark, EachSettledCommitHasItsMark, EachAskerIsAMember, EachAskerStands, EachAskerHasNothingKept, EachAskerWaitsByItsOwn, EachAskerWaitsOn, EachUnderWayWaits, EachKeptOutcomeWasAsked, EachAskerIsTold, EachTurnDropsTheKept, OnlyTurnsDropTheKept};
ghost use Rattle.casper_answers.specs.Replies.{NoJoinLacksMemory, NoAcquireLoads, EachFinishFailsAsItsWriteOut, EachToldFailureIsReal};

/// At every moment of every session a commit that is kept for a client is the place of a commit mark that has the client
/// as a member, and none of the client's writes stands after it, in the trail or pending. A stabilise tells a client an
/// outcome exactly where it was kept for it, and after a commit that it tells no write of the client stands either. A
/// finish or a settle that answers a commit recorded its mark at this place, for the lead and exactly its association.
/// Who waits for the outcome of a stabilisation is a member, live and not fallen, and has nothing kept; only a stabilise of
/// its own makes it wait, and it waits on unless it leaves. What is kept is the outcome of a stabilisation that the client
/// waited for; each that waited has it, and a turn of its own drops it, and nothing else. It does nothing.
pub fn law_of_acknowledgement()
    ensures kept { EachKeptCommitIsTrue }
    ensures told { EachStabiliseTellsTheKept }
    ensures only { EachStabiliseTellsOnlyTheKept }
    ensures covered { EachToldCommitIsTrue }
    ensures finish { EachFinishedCommitHasItsMark }
    ensures settle { EachSettledCommitHasItsMark }
    ensures member { EachAskerIsAMember }
    ensures stands { EachAskerStands }
    ensures nothing { EachAskerHasNothingKept }
    ensures own { EachAskerWaitsByItsOwn }
    ensures on { EachAskerWaitsOn }
    ensures way { EachUnderWayWaits }
    ensures asked { EachKeptOutcomeWasAsked }
    ensures each { EachAskerIsTold }
    ensures drops { EachTurnDropsTheKept }
    ensures leaves { OnlyTurnsDropTheKept }
{}

/// In each step of every session a rollback mark is recorded exactly where a loss is carried out: a client that has not
/// fallen vanishes or is declared lost, or a finish carries out a loss that was noted. The mark names exactly the association.
/// Each live member is fallen after it, by its mark, and nobody else falls; the stabilisation of the association ends, and
/// each other one is as it was. A client that is told that it fell had fallen: at that place stands a rollback that names it
/// and dropped so many of its reads and writes, and so many calls were pending. Then it is live and not fallen, with nothing
/// held, asked, kept or pending. A loss is noted only where it is declared while the association is sealed or in doubt, and
/// the first one stays noted until its stabilisation ends. The places, leads and numbers of each loss are those of the state.
/// It does nothing.
pub fn law_of_losses()
    ensures rollback { EachRollbackIsOfALoss }
    ensures spares { EachLossSparesTheOthers }
    ensures ends { EachLossEndsItsOwn }
    ensures fells { EachLossFellsItsAssociation }
    ensures fallen { EachFallIsOfALoss }
    ensures marked { EachFallenClientIsMarked }
    ensures told { EachToldFallIsTrue }
    ensures up { EachToldClientIsUp }
    ensures tells { EachFallenClientIsTold }
    ensures declared { EachNoteIsOfALoss }
    ensures first { EachFirstNoteStays }
    ensures noted { EachAnsweredNoteIsMade }
    ensures gathering { NoGatheringHasANote }
    ensures vanishing { EachVanishingIsToldTruly }
    ensures losing { EachLossIsToldTruly }
{}

/// In each step of every session that there is no job to write out is answered exactly where the lead has no sealed
/// stabilisation that is not written out, and a lead is named exactly where the vault is busy with its write-out. A write-out
/// is worn only where pages are due and there is no further version, and full only where more frames are needed than are
/// free, with these numbers; a failed disk and a doubt are of the outside; and where nothing is in the way it is written, with
/// the version that the vault has then. A finish ends as the write-out did, and carries a noted loss out where it failed. A
/// settle finds nothing exactly where nothing is in doubt. It does nothing.
pub fn law_of_write_outs()
    ensures job { EachNoJobIsExact }
    ensures vault { EachVaultIsExact }
    ensures worn { EachWornHasItsCause }
    ensures full { EachFullHasItsCause }
    ensures faults { EachFaultIsOfTheOutside }
    ensures written { EachWrittenIsTheVersion }
    ensures can { EachIsWrittenWhereItCan }
    ensures finish { EachFinishIsAsItEnded }
    ensures settle { EachSettleIsOfADoubt }
{}

/// In each step of every session a stabilise that is answered that its association gathers names exactly those that it
/// awaits, one that is answered that it is sealed began it with the client as the lead and counts the modified pages, and one
/// that is answered a lead is of a member of an association that this lead is having written, or that is in doubt. A join is
/// refused for want of room only where all the rest is promised, and tells the entries; where there is room an absent client
/// is live after its join, with the most entries promised to it, or as many as there is room for. It does nothing.
pub fn law_of_joins_and_stabilises()
    ensures gathering { EachGatheringHasItsCause }
    ensures sealed { EachSealedHasItsCause }
    ensures doing { EachDoingHasItsCause }
    ensures full { EachFullJoinHasItsCause }
    ensures joins { EachJoinsWhereThereIsRoom }
{}

/// In each step of every session an acquire, also one that a read or a write makes, is in doubt only where something is
/// lacked and the client or a lacked page belongs to an association in doubt; frozen only where nothing of this is in doubt
/// and the association of this lead is; pending only where neither holds, and then it names exactly those that stand in the
/// way; the trail is full, with its entries, only where what is promised is too little; and the disk failed only where a page
/// could not be read. Where none of this is answered, and no fall, the pages are granted. Where the
/// client has not fallen and nothing of this hinders it once it has opened, they are granted, unless a page could not be read, and
/// nowhere else. It does nothing.
pub fn law_of_acquires()
    ensures doubt { EachInDoubtHasItsCause }
    ensures frozen { EachFrozenHasItsCause }
    ensures pending { EachPendingHasItsCause }
    ensures full { EachTrailFullHasItsCause }
    ensures disk { EachDiskHasItsCause }
    ensures granted { EachIsGrantedWhereNothingHinders }
    ensures free { EachFreeAcquireIsGranted }
    ensures only { EachGrantIsOfTheFree }
{}

/// In each step of every session a stabilisation goes on, unless a finish or a settle ends it with an outcome, or a loss is
/// carried out in its association. Its members stay members, and one that is sealed stays so, or its write-out ended in doubt.
/// A doubt stands until a settle answers the commit. At every moment those that a stabilisation awaits are members, and it
/// gathers exactly while it awaits somebody. It does nothing.
pub fn law_of_lives()
    ensures ends { EachStabilisationEndsOnlySo }
    ensures members { EachMemberStays }
    ensures sealed { EachSealedOneStaysSo }
    ensures doubt { EachDoubtStands }
    ensures awaited { EachAwaitedOneIsAMember }
    ensures gathers { EachGatheringAwaits }
{}

/// In each step of every session a client that departs and is answered so, or that vanishes, is absent after it, and any
/// other that is live stays live. After an acquire that is pending the asks of its client are exactly the wants that others
/// stand in the way of, and after any other, but one that met a failed disk, it has none. What others do leaves the asks of a
/// client, unless it falls. At every moment at most 4,100 entries are promised to a client. Only a write-out and a settle
/// change the vault. It does nothing.
pub fn law_of_places()
    ensures absent { EachLeftClientIsAbsent }
    ensures live { EachLiveClientStays }
    ensures pending { EachPendingAcquireAsks }
    ensures ended { EachOtherAcquireAsksNothing }
    ensures asks { EachAskIsLeftByOthers }
    ensures caps { EachCapIsAtMost }
    ensures vault { EachVaultIsLeft }
{}

/// What a server's turn may reply and no turn of the machine does: a join never replies that memory is short, and an acquire never
/// that a page has to be read first. A finish that failed tells how its write-out did, which is neither done nor in doubt, and so
/// does each failure that a stabilise tells. So each reply stands for the answer of its own. It does nothing.
pub fn law_of_replies()
    ensures join { NoJoinLacksMemory }
    ensures acquire { NoAcquireLoads }
    ensures finish { EachFinishFailsAsItsWriteOut }
    ensures stabilise { EachToldFailureIsReal }
{}
