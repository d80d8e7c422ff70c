ghost use Rattle.casper_map.specs.MapLaws.{ArraysStand};
ghost use Rattle.casper_map.specs.Numbers.{BlocksKeepTheirNumbers};
ghost use Rattle.casper_map.specs.PlanLaws.{FirstFaultyIsFirst, NoneIsFaulty, PlansAddNoFault, OpenedMapsAreWhole, PlansKeepTheMapBlocks, PlansOpen, PlansChangePages, OthersStay, PlansTakeFreeFrames, NamedFramesStay};
ghost use Rattle.casper_map.specs.RoomLaws.{RoomsHaveTheFreeFrames, RoomsHaveTheNeed, RoomsFollowPlans};

/// What was written in a map block is read, and what blocks open to stands while only free frames change. It does nothing.
pub fn map_laws()
    ensures numbers { BlocksKeepTheirNumbers }
    ensures stand { ArraysStand }
{}

/// Which place is refused: the first that is faulty, and none where the frames are in range and apart. A plan keeps them so. It does
/// nothing.
pub fn fault_laws()
    ensures first { FirstFaultyIsFirst }
    ensures none { NoneIsFaulty }
    ensures plans { PlansAddNoFault }
{}

/// What the blocks of a root open to is whole. An image with a plan opens to the map with the plan, and its pages are the old ones
/// with the changes. A page that the plan does not move keeps its frame. It does nothing.
pub fn plan_laws()
    ensures whole { OpenedMapsAreWhole }
    ensures map_blocks { PlansKeepTheMapBlocks }
    ensures opened { PlansOpen }
    ensures pages { PlansChangePages }
    ensures others { OthersStay }
{}

/// Which frames a plan takes, and that the frames of a map stand while only free ones change. It does nothing.
pub fn frame_laws()
    ensures taken { PlansTakeFreeFrames }
    ensures stand { NamedFramesStay }
{}

/// The room of a map: its free frames, what a commit needs of them, and what a plan makes of it. It does nothing.
pub fn room_laws()
    ensures free { RoomsHaveTheFreeFrames }
    ensures need { RoomsHaveTheNeed }
    ensures plans { RoomsFollowPlans }
{}
