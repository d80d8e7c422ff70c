ghost use Rattle.casper_gather.specs.AskerLaws.{LeadIsAsker, WhoAsksIsAsker, OtherAskersStay, WhoIsGoneIsNoAsker, OtherAskersAreKept, AskersAreToldOnce};
ghost use Rattle.casper_gather.specs.FinishLaws.{FinishCarriesOut, NotedLossIsCarriedOut, FailureIsTold, DoubtKeepsTheLoss};
ghost use Rattle.casper_gather.specs.GatherLaws.{BegunGathers, BegunSealed, GathersForTheOthers, LastMemberSeals};
ghost use Rattle.casper_gather.specs.UnendedLaws.{FoundByLead, FoundByMembers, FoundSealed, FoundInDoubt, ChangedAsInTheMachine, EndedAsInTheMachine, ForgottenAsInTheMachine, BegunAsInTheMachine};

/// The laws of gathering: how long it lasts and what ends it, as contracts of a call that does nothing.
pub fn gather_laws()
    ensures begun { BegunGathers }
    ensures sealed { BegunSealed }
    ensures others { GathersForTheOthers }
    ensures last { LastMemberSeals }
{}

/// The laws of who waits for an outcome and is told of it, as contracts of a call that does nothing.
pub fn asker_laws()
    ensures lead { LeadIsAsker }
    ensures asked { WhoAsksIsAsker }
    ensures others { OtherAskersStay }
    ensures gone { WhoIsGoneIsNoAsker }
    ensures kept { OtherAskersAreKept }
    ensures once { AskersAreToldOnce }
{}

/// The laws of outcomes: what the machine's finishing turn does with them, as contracts of a call that does nothing.
pub fn finish_laws()
    ensures finish { FinishCarriesOut }
    ensures loss { NotedLossIsCarriedOut }
    ensures told { FailureIsTold }
    ensures doubt { DoubtKeepsTheLoss }
{}

/// The laws of the stabilisations that have not ended: they are found, begin, change and end as in the machine, as contracts of a call
/// that does nothing.
pub fn unended_laws()
    ensures found { FoundByLead }
    ensures by_members { FoundByMembers }
    ensures sealed { FoundSealed }
    ensures in_doubt { FoundInDoubt }
    ensures begun { BegunAsInTheMachine }
    ensures changed { ChangedAsInTheMachine }
    ensures ended { EndedAsInTheMachine }
    ensures forgotten { ForgottenAsInTheMachine }
{}
