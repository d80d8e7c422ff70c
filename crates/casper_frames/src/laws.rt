ghost use Rattle.casper_frames.specs.Changes.{KeptHasItsFrame, DroppedIsGone, OthersStay, OthersAreTheRest};

/// What keeping a page, and dropping one, leaves of every page.
pub fn keeping_laws()
    ensures kept { KeptHasItsFrame }
    ensures dropped { DroppedIsGone }
    ensures stay { OthersStay }
    ensures rest { OthersAreTheRest }
{}
