use casper_words::{Crew, Who};

/// A decision over the open entries of an association: they became stable, or they were dropped.
#[derive(Clone, Copy, Debug, PartialEq, Eq)]
pub enum Mark {
    /// The open entries of the members became stable. The lead is the client that began it.
    Commit { lead: Who, members: Crew },
    /// The open entries of the members were dropped, since this client was lost.
    Rollback { lost: Who, members: Crew },
}
