ghost use Rattle.std.specs.Prelude.{◌≡◌};
ghost use Rattle.casper_app.specs.Play.{no_past, past_with};

use casper_trail::{Mark, Trail};

/// What the sessions that ended came to. A count of marks stays at the greatest of its type.
#[derive(Clone, Copy, Debug, PartialEq, Eq)]
pub(crate) struct Past {
    pub(crate) commits: u64,
    pub(crate) rollbacks: u64,
}

impl Past {
    /// Before any session has ended.
    pub(crate) fn none() -> Past
        ensures { result ≡ no_past }
    {
        Past {
            commits: 0,
            rollbacks: 0,
        }
    }

    /// What they came to with a session that ends with this trail.
    pub(crate) fn with(&self, trail: &Trail) -> Past
        ensures { result ≡ past_with self.now trail.now.items }
    {
        let _mark: Option<Mark> = None;
        Past {
            commits: self.commits.saturating_add(trail.commits()),
            rollbacks: self.rollbacks.saturating_add(trail.rollbacks()),
        }
    }
}
