ghost use Rattle.casper_trail.specs.ValueLaws.{ValueOfMore, ValueByItsPage, ArrayKeepsShape, ArrayHasValues, ArrayByItsWords, ArrayOfMore};
ghost use Rattle.casper_trail.specs.PartLaws.{FateOfMore, FateOfMoreEntries, PartOfMore, LiveOfMoreEntries, OpenOfMoreEntries, StableOfMoreEntries, OpenAfterMark, LiveAfterCommit};
ghost use Rattle.casper_trail.specs.AssociationLaws.{AssociationIsACrew, AssociationHoldsItsClient, AssociationIsSettled, AssociationGoesBothWays, AssociationGoesOn, AssociationOfAMember, AssociationOfLinked, AssociationIsLeast};
ghost use Rattle.casper_trail.specs.CauseLaws.{OpenEntriesLink, OneAssociationAPage, CauseSharesFate, StableIsClosed, AssociationIsClosed, LiveIsLegal};
ghost use Rattle.casper_trail.specs.GrowthLaws.{AssociationGrows, AloneWithoutEntries, AssociationOfOneMore, AssociationOfMoreCalls, AssociationsUnite, OthersStayApart, MembersAfterMark, OthersAfterMark};
ghost use Rattle.casper_trail.specs.CallLaws.{CallsOfMore, CallsOfTheirClient, CallsOfAnother, CallsAfterTouch, CallsAfterMark, ClientsOfMore, ClientsOfCalls, CountOfMoreEntries, CountAfterMark};
ghost use Rattle.casper_trail.specs.WholeLaws.{WholeIsLegal};
ghost use Rattle.casper_trail.specs.PageLaws.{UnmodifiedPage, PageOfOthers, PageOfAssociation, SameWritesOfAPage, ValueAfterMark, ValueOfCleanPage, ValueOfModifiedPage, ImageOfOtherPage, StableAfterCommit, ImageAfterCommit};
ghost use Rattle.casper_trail.specs.ImageLaws.{ImageWithoutCommit, ImageWithoutMembers};
ghost use Rattle.casper_trail.specs.LegalLaws.{RightOfMore, RightBySameWrites, LegalOfMoreEntries, LegalWithoutMarks, LegalAfterMark, LegalPrefix, ExactOfMoreEntries, ExactAfterMark, ExactPrefix, ExactAtEachMark, RightAtEachEntry};
ghost use Rattle.casper_trail.specs.KnownTrails.{RecallAndMergeIsExact, LinkedRollbackFates, LinkedRollbackDropsBoth, LinkedRollbackIsExact, ThroughTwoPagesLinksThree, ThroughTwoPagesLeavesOne, ThroughTwoPagesIsLegal, StrayReadIsIllegal};

/// The laws of values and arrays, as contracts of a call that does nothing.
pub fn value_laws()
    ensures more { ValueOfMore }
    ensures page { ValueByItsPage }
    ensures shape { ArrayKeepsShape }
    ensures values { ArrayHasValues }
    ensures words { ArrayByItsWords }
    ensures array { ArrayOfMore }
{}

/// The laws of fates and parts, as contracts of a call that does nothing.
pub fn part_laws()
    ensures fate { FateOfMore }
    ensures fate_entries { FateOfMoreEntries }
    ensures part { PartOfMore }
    ensures live { LiveOfMoreEntries }
    ensures open_part { OpenOfMoreEntries }
    ensures stable { StableOfMoreEntries }
    ensures after_mark { OpenAfterMark }
    ensures after_commit { LiveAfterCommit }
{}

/// The laws of legal items and exact marks, as contracts of a call that does nothing.
pub fn turn_laws()
    ensures legal_entries { LegalOfMoreEntries }
    ensures legal_alone { LegalWithoutMarks }
    ensures right_more { RightOfMore }
    ensures right_writes { RightBySameWrites }
    ensures legal_mark { LegalAfterMark }
    ensures legal_prefix { LegalPrefix }
    ensures exact_entries { ExactOfMoreEntries }
    ensures exact_mark { ExactAfterMark }
    ensures exact_prefix { ExactPrefix }
    ensures exact_at { ExactAtEachMark }
    ensures right_at { RightAtEachEntry }
{}

/// The laws of associations, as contracts of a call that does nothing.
pub fn association_laws()
    ensures crew { AssociationIsACrew }
    ensures settled { AssociationIsSettled }
    ensures holds { AssociationHoldsItsClient }
    ensures both { AssociationGoesBothWays }
    ensures on { AssociationGoesOn }
    ensures member { AssociationOfAMember }
    ensures linked { AssociationOfLinked }
    ensures least { AssociationIsLeast }
{}

/// The laws of causes, as contracts of a call that does nothing.
pub fn cause_laws()
    ensures link { OpenEntriesLink }
    ensures page { OneAssociationAPage }
    ensures fate { CauseSharesFate }
    ensures stable { StableIsClosed }
    ensures association { AssociationIsClosed }
    ensures live { LiveIsLegal }
{}

/// The laws of images, as contracts of a call that does nothing.
pub fn image_laws()
    ensures stable { ImageWithoutCommit }
    ensures members { ImageWithoutMembers }
{}

/// The laws of how associations grow and end, as contracts of a call that does nothing.
pub fn growth_laws()
    ensures grows { AssociationGrows }
    ensures alone { AloneWithoutEntries }
    ensures one_more { AssociationOfOneMore }
    ensures calls { AssociationOfMoreCalls }
    ensures unite { AssociationsUnite }
    ensures apart { OthersStayApart }
    ensures members { MembersAfterMark }
    ensures others { OthersAfterMark }
{}

/// The laws of single pages, their values and their images, as contracts of a call that does nothing.
pub fn page_laws()
    ensures unmodified { UnmodifiedPage }
    ensures others { PageOfOthers }
    ensures association { PageOfAssociation }
    ensures writes { SameWritesOfAPage }
    ensures mark { ValueAfterMark }
    ensures clean { ValueOfCleanPage }
    ensures modified { ValueOfModifiedPage }
    ensures other { ImageOfOtherPage }
    ensures stable { StableAfterCommit }
    ensures commit { ImageAfterCommit }
{}

/// The laws of the calls of clients and of the whole history, as contracts of a call that does nothing.
pub fn call_laws()
    ensures more { CallsOfMore }
    ensures own { CallsOfTheirClient }
    ensures another { CallsOfAnother }
    ensures touch { CallsAfterTouch }
    ensures mark { CallsAfterMark }
    ensures clients { ClientsOfMore }
    ensures clients_calls { ClientsOfCalls }
    ensures count { CountOfMoreEntries }
    ensures count_mark { CountAfterMark }
    ensures whole { WholeIsLegal }
{}

/// Small trails whose meaning is known, as contracts of a call that does nothing.
pub fn examples()
    ensures recall { RecallAndMergeIsExact }
    ensures rollback_fates { LinkedRollbackFates }
    ensures rollback { LinkedRollbackDropsBoth }
    ensures rollback_exact { LinkedRollbackIsExact }
    ensures linked { ThroughTwoPagesLinksThree }
    ensures apart { ThroughTwoPagesLeavesOne }
    ensures legal { ThroughTwoPagesIsLegal }
    ensures illegal { StrayReadIsIllegal }
{}
