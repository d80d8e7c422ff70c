ghost use Rattle.casper_commit.specs.OpenedLaws.{OpenedIsCurrent, CurrentIsOpened, OpenedStands, OpenedStill, OpenedNext, NextIsGreater, SeqIsRead};
ghost use Rattle.casper_commit.specs.StateLaws.{StandingOpens, GateDecides, GateTells, FoundStands, StandingFound, StandingRebased, StandingWider, GateRebased};

/// What a stop leaves of a root that stands, and of two between which a gate decides, as the contract of a call that does nothing.
pub fn state_laws()
    ensures standing { StandingOpens }
    ensures decides { GateDecides }
    ensures tells { GateTells }
    ensures found { FoundStands }
    ensures found_standing { StandingFound }
    ensures rebased { StandingRebased }
    ensures wider { StandingWider }
    ensures gate_rebased { GateRebased }
{}

/// What blocks open to is their current root under their header, so images that open to the old root or to a next one do so as a
/// store, as the contract of a call that does nothing.
pub fn opened_laws()
    ensures current { OpenedIsCurrent }
    ensures opened { CurrentIsOpened }
    ensures stands { OpenedStands }
    ensures still { OpenedStill }
    ensures next { OpenedNext }
    ensures greater { NextIsGreater }
    ensures number { SeqIsRead }
{}
