ghost use Rattle.casper_words.specs.BlockWords.{BlocksKeepTheirWords, WordsKeepTheirBlock, WordsFillABlock};
ghost use Rattle.casper_words.specs.Crew.{MembersPassTheTest, TestsMakeCrews, CrewsWithTheSameMembersAreEqual, MembersAreClients, CrewsRise, FirstMembersAreLeast};
ghost use Rattle.casper_words.specs.Wants.{EarlierWantsAreLower};

/// The laws of crews, as the contract of a call that does nothing.
pub fn crew_laws()
    ensures members { MembersPassTheTest }
    ensures crews { TestsMakeCrews }
    ensures equal { CrewsWithTheSameMembersAreEqual }
    ensures clients { MembersAreClients }
    ensures rise { CrewsRise }
    ensures least { FirstMembersAreLeast }
{}

/// The law of wants, as the contract of a call that does nothing.
pub fn wants_laws()
    ensures lower { EarlierWantsAreLower }
{}

/// The laws of the words of a block, as the contract of a call that does nothing.
pub fn block_laws()
    ensures words { BlocksKeepTheirWords }
    ensures block { WordsKeepTheirBlock }
    ensures long { WordsFillABlock }
{}
