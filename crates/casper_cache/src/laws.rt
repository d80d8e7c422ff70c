ghost use Rattle.casper_cache.specs.Changes.{FrontKeepsEntries, WrittenChangesOne, GradedChangesOne, OthersAreTheRest, OthersKeepTheirOrder};
ghost use Rattle.casper_cache.specs.History.{WordsAreAsWritten};

/// What each change of the held pages leaves of every page, and of their order.
pub fn change_laws()
    ensures front { FrontKeepsEntries }
    ensures written { WrittenChangesOne }
    ensures graded { GradedChangesOne }
    ensures others { OthersAreTheRest }
    ensures order { OthersKeepTheirOrder }
{}

/// The words of a held page are those last installed with each write hit since then applied, whatever else
/// happened: other pages installed or given up, calls recorded, the cap changed.
pub fn history_law()
    ensures { WordsAreAsWritten }
{}
