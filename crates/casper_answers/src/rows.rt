ghost use Rattle.casper_answers.specs.AnswerRows.{KeptCommit, SealedWithAsker, NotedLoss, FallenClient, Gather, Doubt, PendingAsk};
ghost use Rattle.casper_answers.specs.RuleRows.{StrangerAfterAFinish, RollbackBesideAGather, ServeInDoubt, LossNotedThenFull, LossNotedThenWorn, FrozenByTheFirstWant, FrozenByOnesOwn, InDoubtBeforeFrozen, PendingBeforeTrailFull, TrailFullTellsEntries, RoomForOneCall, OnePagePastTheEnd, DepartOfAFallenClient, WornBeforeFull, AsksAreTheBlockedWants, MapBlocksOfPages, HeapLineNeedsItsRoom, NoPagesNeedNoFrame};

/// Runs that meet what the laws suppose, worked out. It does nothing.
pub fn rows_of_answers()
    ensures kept { KeptCommit }
    ensures sealed { SealedWithAsker }
    ensures noted { NotedLoss }
    ensures fallen { FallenClient }
    ensures gather { Gather }
    ensures doubt { Doubt }
    ensures pending { PendingAsk }
{}

/// Runs worked out by hand from the rules, each for a rule that is easily turned. It does nothing.
pub fn rows_of_rules()
    ensures stranger_after_a_finish { StrangerAfterAFinish }
    ensures rollback_beside_a_gather { RollbackBesideAGather }
    ensures serve_in_doubt { ServeInDoubt }
    ensures loss_noted_then_full { LossNotedThenFull }
    ensures loss_noted_then_worn { LossNotedThenWorn }
    ensures frozen_by_the_first_want { FrozenByTheFirstWant }
    ensures frozen_by_ones_own { FrozenByOnesOwn }
    ensures in_doubt_before_frozen { InDoubtBeforeFrozen }
    ensures pending_before_trail_full { PendingBeforeTrailFull }
    ensures trail_full_tells_entries { TrailFullTellsEntries }
    ensures room_for_one_call { RoomForOneCall }
    ensures one_page_past_the_end { OnePagePastTheEnd }
    ensures depart_of_a_fallen_client { DepartOfAFallenClient }
    ensures worn_before_full { WornBeforeFull }
    ensures asks_are_the_blocked_wants { AsksAreTheBlockedWants }
    ensures map_blocks_of_pages { MapBlocksOfPages }
    ensures heap_line_room { HeapLineNeedsItsRoom }
    ensures no_pages { NoPagesNeedNoFrame }
{}
