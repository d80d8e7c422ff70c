ghost use Rattle.casper_model.specs.CallRows.{Empty, HitOnOnesOwnPendingCall, TheLastPlaceNeverWritten, PastTheEnd, RecallOfAWriter, FullTrail, Eviction};
ghost use Rattle.casper_model.specs.AssociationRows.{RecallAndMerge, TrailOfRecallAndMerge, WriteRightThatWasNeverUsed, MarkOfWriteRightThatWasNeverUsed, MergeThroughTwoPages, MarkOfMergeThroughTwoPages, ImageOfMergeThroughTwoPages, LinkedRollback, LateHits, DepartedMember, MarkOfDepartedMember, DeclaredLoss};
ghost use Rattle.casper_model.specs.StabilisationRows.{RepeatedStabilisation, TwoMembersStabilise, Gather, FramesTooFewByOne, FramesJustEnough, FramesUsedUp, FaultBeforeTheGate, DoubtSettled, DoubtThatStands, LossWhileSealed, LossWhileSealedUndone, LossWhileGathering, LossInDoubt};
ghost use Rattle.casper_model.specs.CacheRows.{ToppedUp, EvictionByUse, OrderOfWants, TrailOfUpgrade, FailedLoad, TrailOfAPageKeptForReading, AskOnAPageGivenUp, AskOnAPageGivenUpBefore, AskThatEnded, RoomForPendingCalls};
ghost use Rattle.casper_model.specs.FrozenRows.{OutcomeDropped, TurnBeforeTheFinish, AskerThatDeparted, FrozenPages, PagesOfOthersAreNotFrozen, PagesAreCounted, OneWriteOutAtATime, NoWriteOutInDoubt, DoubtBeforeItsFinish, SealedByAnAsker, MemberThatJoinsAgain, NoFurtherVersion, FirstNotedLoss, MarkOfFirstNotedLoss, FallenClientVanishes};
ghost use Rattle.casper_model.specs.LossRows.{RightsOfAFallenClient, AsksOfAFallenClient, OutcomeOfAFallenClient};

/// What short runs of reads and writes answer. It does nothing.
pub fn rows_of_calls()
    ensures empty { Empty }
    ensures own_pending_call { HitOnOnesOwnPendingCall }
    ensures last_place { TheLastPlaceNeverWritten }
    ensures past_the_end { PastTheEnd }
    ensures recall { RecallOfAWriter }
    ensures full_trail { FullTrail }
    ensures eviction { Eviction }
{}

/// What runs answer in which clients are linked, depart and are lost. It does nothing.
pub fn rows_of_associations()
    ensures recall_and_merge { RecallAndMerge }
    ensures its_trail { TrailOfRecallAndMerge }
    ensures unused_write_right { WriteRightThatWasNeverUsed }
    ensures its_mark { MarkOfWriteRightThatWasNeverUsed }
    ensures two_pages { MergeThroughTwoPages }
    ensures mark_of_two_pages { MarkOfMergeThroughTwoPages }
    ensures image_of_two_pages { ImageOfMergeThroughTwoPages }
    ensures linked_rollback { LinkedRollback }
    ensures late_hits { LateHits }
    ensures departed_member { DepartedMember }
    ensures mark_of_departed_member { MarkOfDepartedMember }
    ensures declared_loss { DeclaredLoss }
{}

/// What runs answer in which associations are made stable, with failures of the disk. It does nothing.
pub fn rows_of_stabilisations()
    ensures repeated { RepeatedStabilisation }
    ensures two_members { TwoMembersStabilise }
    ensures gather { Gather }
    ensures too_few_frames { FramesTooFewByOne }
    ensures enough_frames { FramesJustEnough }
    ensures frames_used_up { FramesUsedUp }
    ensures fault { FaultBeforeTheGate }
    ensures doubt_settled { DoubtSettled }
    ensures doubt_stands { DoubtThatStands }
    ensures loss_while_sealed { LossWhileSealed }
    ensures loss_undone { LossWhileSealedUndone }
    ensures loss_while_gathering { LossWhileGathering }
    ensures loss_in_doubt { LossInDoubt }
{}

/// What runs answer that show the order of use, the room of a client, and the asks of others. It does nothing.
pub fn rows_of_caches()
    ensures topped_up { ToppedUp }
    ensures eviction_by_use { EvictionByUse }
    ensures order_of_wants { OrderOfWants }
    ensures upgrade { TrailOfUpgrade }
    ensures failed_load { FailedLoad }
    ensures ask_blocks { AskOnAPageGivenUp }
    ensures kept_for_reading { TrailOfAPageKeptForReading }
    ensures ask_of_before { AskOnAPageGivenUpBefore }
    ensures ask_ended { AskThatEnded }
    ensures pending_room { RoomForPendingCalls }
{}

/// What runs answer while associations are frozen, and to those who wait for them. It does nothing.
pub fn rows_of_frozen_associations()
    ensures outcome_dropped { OutcomeDropped }
    ensures turn_before_the_finish { TurnBeforeTheFinish }
    ensures asker_departed { AskerThatDeparted }
    ensures frozen_pages { FrozenPages }
    ensures pages_of_others { PagesOfOthersAreNotFrozen }
    ensures pages_counted { PagesAreCounted }
    ensures one_at_a_time { OneWriteOutAtATime }
    ensures none_in_doubt { NoWriteOutInDoubt }
    ensures doubt_before_finish { DoubtBeforeItsFinish }
    ensures sealed_by_an_asker { SealedByAnAsker }
    ensures joins_again { MemberThatJoinsAgain }
    ensures worn { NoFurtherVersion }
    ensures first_noted { FirstNotedLoss }
    ensures mark_of_first_noted { MarkOfFirstNotedLoss }
    ensures fallen_vanishes { FallenClientVanishes }
{}

/// What runs answer after the fall of a client. It does nothing.
pub fn rows_of_losses()
    ensures fallen_rights { RightsOfAFallenClient }
    ensures fallen_asks { AsksOfAFallenClient }
    ensures fallen_outcome { OutcomeOfAFallenClient }
{}
