ghost use Rattle.casper_model.specs.Growth.{AcquireAddsOwn, ServeAddsOwn, StabiliseAddsOwn, DepartAddsOwn, EachStepExtendsTheTrail};
ghost use Rattle.casper_model.specs.FallLaw.{EachStepKeepsTheFallenMarked, EveryRunMarksTheFallen};
ghost use Rattle.casper_model.specs.Rights.{StartsInOrder, EachStepKeepsTheRights, EveryRunKeepsTheRights};
ghost use Rattle.casper_model.specs.ExactHistory.{EachStepKeepsMarksExact, EveryRunHasExactMarks};
ghost use Rattle.casper_model.specs.LegalHistory.{EachStepKeepsHistory, EveryRunIsLegal};
ghost use Rattle.casper_model.specs.WholeHistory.{EveryRunIsLegalAsAWhole, EveryRunHasALegalLivePart, EveryRunHasAClosedStablePart};
ghost use Rattle.casper_model.specs.RoomLaw.{EachStepKeepsRoom, EveryRunKeepsRoom};

/// The trail only grows at its end, and a turn adds no entry but the pending calls and the touches of its
/// client. It does nothing.
pub fn law_of_growth()
    ensures acquire { AcquireAddsOwn }
    ensures serve { ServeAddsOwn }
    ensures stabilise { StabiliseAddsOwn }
    ensures depart { DepartAddsOwn }
    ensures step { EachStepExtendsTheTrail }
{}

/// At every moment of every run each page has one writer or many readers, the rights are those of the own parts,
/// and a fallen client has no right and no ask. It does nothing.
pub fn law_of_rights()
    ensures start { StartsInOrder }
    ensures step { EachStepKeepsTheRights }
    ensures run { EveryRunKeepsTheRights }
{}

/// At every moment of every run each mark names the association of its lead, or of the client that was lost. It
/// does nothing.
pub fn law_of_exact_marks()
    ensures step { EachStepKeepsMarksExact }
    ensures run { EveryRunHasExactMarks }
{}

/// At every moment of every run the trail is legal: each read has the value of the last write on its word that was
/// live before it, and without one the value that the session found. So is the trail with all pending calls after
/// it, and so is its live part by itself. The stable part is causally closed. It does nothing.
pub fn law_of_legal_history()
    ensures step { EachStepKeepsHistory }
    ensures run { EveryRunIsLegal }
    ensures whole { EveryRunIsLegalAsAWhole }
    ensures live { EveryRunHasALegalLivePart }
    ensures stable { EveryRunHasAClosedStablePart }
{}

/// At every moment of every run a fallen client has no open entry, and at the place of its mark stands a rollback
/// that names it. It does nothing.
pub fn law_of_fallen_clients()
    ensures step { EachStepKeepsTheFallenMarked }
    ensures run { EveryRunMarksTheFallen }
{}

/// At every moment of every run the entries and all caps together are within the limit, and no client has more calls
/// pending than its cap. It does nothing.
pub fn law_of_room()
    ensures step { EachStepKeepsRoom }
    ensures run { EveryRunKeepsRoom }
{}
