ghost use Rattle.casper_model.specs.ExactHistory.{EveryRunHasExactMarks};
ghost use Rattle.casper_model.specs.LegalHistory.{EveryRunIsLegal};
ghost use Rattle.casper_model.specs.WholeHistory.{EveryRunIsLegalAsAWhole, EveryRunHasALegalLivePart, EveryRunHasAClosedStablePart};
ghost use Rattle.casper_laws.specs.Additions.{EachStepAddsExactly, EveryRunAddsExactly};
ghost use Rattle.casper_laws.specs.AnswerLaws.{EveryAnswerIsOfItsEvent, EveryAbsentClientIsToldSo, EveryPagePastTheStoreIsToldSo, EveryJoinOfTheLiveIsBusy, GrantedGivesRightsAndRoom, GrantedCallsAreMade, EveryKeptOutcomeIsOver};
ghost use Rattle.casper_laws.specs.PendingLaws.{EachStepKeepsPendingListsShort, EveryRunKeepsPendingListsShort, EveryRunKeepsCapsInAgreement, EveryRunHasRightsForPendingCalls};
ghost use Rattle.casper_laws.specs.FrozenLaws.{StartsWithoutStabilisations, EachStepKeepsStabilisationsInOrder, EveryRunKeepsStabilisationsInOrder, EveryRunKeepsHeldAssociationsSilent};
ghost use Rattle.casper_laws.specs.MarkRoom.{EachStepKeepsNotedMembers, EachStepRecordsMarksThatAreDue, EveryRunKeepsRoomForMarks, EveryMarkHasItsRoom};
ghost use Rattle.casper_laws.specs.OwnLists.{EachStepKeepsPendingCalls, EveryRunHasPendingCalls, EveryAbsentClientHasNothingPending, EachStepAddsCompletedCalls, EveryRunAddsCompletedCalls, EveryRunHasCallsInOrder, EachDepartureRecordsAll, EveryDepartureRecordsAll};
ghost use Rattle.casper_laws.specs.RecallLaws.{EachServeMeetsTheAsks, EveryServeMeetsTheAsks};
ghost use Rattle.casper_laws.specs.RunFacts.{EveryRunHasHistory, EveryHolderIsWithItsWriters, EveryEntryIsOfAClient, EveryRunNotesMembers, EveryRunNotesTheUnfallen, EveryDoubtIsOfOneLead};
ghost use Rattle.casper_laws.specs.HeldWords.{EveryRunKeepsItsArray, EveryRunShowsLiveAndOwn, EveryRunShowsLiveWords, EveryPendingWriteIsAlone, EveryRunShowsHoldersTheSame};
ghost use Rattle.casper_laws.specs.HeldWordSteps.{OthersLeaveEachOwnPart, EveryStepKeepsHeldWords, OthersLeaveEachHeldWord, TheFallenSeeOn, EveryReadIsOfWhatIsSeen, EveryWriteIsSeen};
ghost use Rattle.casper_laws.specs.StoredImage.{StartsWithItsImage, EachStepKeepsTheImage, EveryRunKeepsTheImage, EveryQuietMomentHasTheStableImage, EveryWrittenImageHasItsAssociation};

/// At every moment of every run a client has at most 4,096 calls pending, what is promised to a live client is what
/// its own part has, and one that is not fallen has the right for each call that it has pending. It does nothing.
pub fn law_of_pending_calls()
    ensures step { EachStepKeepsPendingListsShort }
    ensures run { EveryRunKeepsPendingListsShort }
    ensures caps { EveryRunKeepsCapsInAgreement }
    ensures rights { EveryRunHasRightsForPendingCalls }
{}

/// At every moment of every run each stabilisation is led by a client, no two have a common member, and no member
/// may write a page but those that a gathering one awaits; no member of one that is sealed or in doubt has a write
/// pending. At most one write-out is unfinished or in doubt: an unfinished one is of a sealed stabilisation, and the
/// vault has a doubt exactly where a write-out ended so. It does nothing.
pub fn law_of_stabilisations()
    ensures start { StartsWithoutStabilisations }
    ensures step { EachStepKeepsStabilisationsInOrder }
    ensures run { EveryRunKeepsStabilisationsInOrder }
    ensures silent { EveryRunKeepsHeldAssociationsSilent }
{}

/// At every moment of every run at which no write-out is unfinished the vault's image is the stable image. After a
/// write-out that answered Ok and before its finish it is the stable image with the association of its lead; after
/// one that failed it is the stable image. Where a write-out ended in doubt the vault settles to the image with the
/// association. It does nothing.
pub fn law_of_images()
    ensures start { StartsWithItsImage }
    ensures step { EachStepKeepsTheImage }
    ensures run { EveryRunKeepsTheImage }
    ensures quiet { EveryQuietMomentHasTheStableImage }
    ensures written { EveryWrittenImageHasItsAssociation }
{}

/// A join and a client's turn record no mark, so they may first take memory for the marks to come. Any other step
/// records no more marks than it leaves fewer due, where one is due for each live client that is not fallen and one for
/// each stabilisation. So where joins and turns keep room for the marks that are due, it is there at every moment of
/// every run, and a write-out, a finish, a settle, a vanish and a loss never need memory for a mark. It does nothing.
pub fn law_of_mark_room()
    ensures noted { EachStepKeepsNotedMembers }
    ensures step { EachStepRecordsMarksThatAreDue }
    ensures run { EveryRunKeepsRoomForMarks }
    ensures mark { EveryMarkHasItsRoom }
{}

/// In each step of every run each client keeps all its recorded and pending calls, in their order, and after them stand
/// exactly the calls that the step completed for it: a read that was answered a value, with this value, or a write that
/// was answered Ok. Only a client that was fallen and is told so, and one that vanishes, loses calls then, and exactly
/// those that were pending. So the calls of a client to which neither happened are exactly those that the run completed
/// for it, in the order in which they were answered. Of a client that has left, all are recorded. What is pending are
/// reads and writes, and an absent client has nothing pending. It does nothing.
pub fn law_of_own_lists()
    ensures pending { EachStepKeepsPendingCalls }
    ensures calls { EveryRunHasPendingCalls }
    ensures absent { EveryAbsentClientHasNothingPending }
    ensures step { EachStepAddsCompletedCalls }
    ensures run { EveryRunAddsCompletedCalls }
    ensures order { EveryRunHasCallsInOrder }
    ensures departure { EachDepartureRecordsAll }
    ensures departures { EveryDepartureRecordsAll }
{}

/// What each step of every run adds to the trail, exactly, by its event and its answer. A turn of a client records its
/// pending calls, in their order. An acquire that is granted, also where a read or a write made it, records after them a
/// touch of each page that was missing, in order. A client that is told of its fall records nothing, and nor does a call
/// that is a hit. A finish or a settle that makes an association stable adds its commit mark, and a loss that is carried
/// out the rollback mark of the association of the client that was lost. Nothing else is added. It does nothing.
pub fn law_of_additions()
    ensures step { EachStepAddsExactly }
    ensures run { EveryRunAddsExactly }
{}

/// In each step of every run the answer is one of those that its event may have. That a client is absent is answered
/// exactly where one that has to be live is not, that a page or a word is out of range exactly where it is past the
/// store's and the client is not absent, and that a client has joined before exactly where one that joins is live. After
/// an acquire that is granted its client holds each page that it wanted with the right that it wanted, and has room for
/// the calls that it asked for, up to 4,096. So a read or a write whose page is granted is made: its answer is never that
/// the page is granted. What is kept for a client is a commit or how a write-out failed, never a doubt. It does nothing.
pub fn law_of_answers()
    ensures event { EveryAnswerIsOfItsEvent }
    ensures absent { EveryAbsentClientIsToldSo }
    ensures range { EveryPagePastTheStoreIsToldSo }
    ensures busy { EveryJoinOfTheLiveIsBusy }
    ensures granted { GrantedGivesRightsAndRoom }
    ensures calls { GrantedCallsAreMade }
    ensures kept { EveryKeptOutcomeIsOver }
{}

/// After a serve a client that is not fallen holds no page that another client asks to write, and may write no page
/// that another asks for. It does nothing.
pub fn law_of_recalls()
    ensures step { EachServeMeetsTheAsks }
    ensures run { EveryServeMeetsTheAsks }
{}

/// At every moment of every run the rights are in order, the marks exact, and the trail legal, with entries of clients
/// alone. A client that is live and not fallen and holds a page is in one association with the client of each open
/// write on it. It does nothing.
pub fn law_of_holders()
    ensures history { EveryRunHasHistory }
    ensures clients { EveryEntryIsOfAClient }
    ensures holders { EveryHolderIsWithItsWriters }
{}

/// At every moment of every run each loss that is noted is of a member of its stabilisation's association that is not
/// fallen. Where the vault has a doubt, its changes are those of the association of the one lead whose write-out is
/// unfinished or in doubt. It does nothing.
pub fn law_of_notes_and_doubts()
    ensures noted { EveryRunNotesMembers }
    ensures unfallen { EveryRunNotesTheUnfallen }
    ensures doubt { EveryDoubtIsOfOneLead }
{}

/// At every moment of every run a client that is live and not fallen sees the array that the session found after the
/// live entries and its own pending calls, and in a page that it may not write after the live entries alone. A page
/// on which a client has a write pending is held by no other, and all that hold a page see the same words in it. It
/// does nothing.
pub fn law_of_held_words()
    ensures array { EveryRunKeepsItsArray }
    ensures own { EveryRunShowsLiveAndOwn }
    ensures live { EveryRunShowsLiveWords }
    ensures alone { EveryPendingWriteIsAlone }
    ensures same { EveryRunShowsHoldersTheSame }
{}

/// In each step of every run what others do leaves a client the pages that it holds and its pending calls, and while it
/// is live and not fallen also each word that it sees in those pages. Its own turns leave these words too, but for the
/// one that it writes: a write that is answered Ok is seen, and a read that is answered a value gives the one that is
/// seen. Neither its fall nor what others do after it changes what a client sees, until it is told. It does nothing.
pub fn law_of_held_words_in_steps()
    ensures parts { OthersLeaveEachOwnPart }
    ensures step { EveryStepKeepsHeldWords }
    ensures others { OthersLeaveEachHeldWord }
    ensures fallen { TheFallenSeeOn }
    ensures read { EveryReadIsOfWhatIsSeen }
    ensures write { EveryWriteIsSeen }
{}

/// At every moment of every run, for every order of events and whatever the outside does, the completed reads and
/// writes that no rollback dropped, and then the pending calls, are one legal history of a plain array of pages. Each
/// step adds to the trail at its end alone, and exactly what its event and its answer say. Each client's calls stand in
/// the order in which they were answered: a step adds after them exactly the call that it completes, and only a client
/// that was fallen and is told so, or that vanishes, loses what it had pending. Of a client that has left, all are
/// recorded. What is stable is a causally closed part, and a mark names exactly the association of its lead. The vault's
/// image is that part's, and after a write-out that answered Ok that part's with the association of the lead. It does
/// nothing.
pub fn law_of_one_history()
    ensures trail { EveryRunIsLegal }
    ensures whole { EveryRunIsLegalAsAWhole }
    ensures live { EveryRunHasALegalLivePart }
    ensures growth { EveryRunAddsExactly }
    ensures completed { EveryRunAddsCompletedCalls }
    ensures order { EveryRunHasCallsInOrder }
    ensures departure { EveryDepartureRecordsAll }
    ensures stable { EveryRunHasAClosedStablePart }
    ensures exact { EveryRunHasExactMarks }
    ensures quiet { EveryQuietMomentHasTheStableImage }
    ensures written { EveryWrittenImageHasItsAssociation }
{}
