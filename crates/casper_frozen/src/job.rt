ghost use Rattle.std.specs.Prelude.{◌≡◌};

use casper_words::{Frame, Page, Who};
use std::marker::Model;

/// The pages that an association has modified, with their words, for a write-out. Contracts see the lead and the pages with their
/// words.
#[derive(Drop)]
pub struct Job {
    lead: Who,
    changes: Vec<(Page, Frame)>,
}

impl Model for Job {
    ghost use Rattle.casper_frozen.specs.Jobs.{JobView};

    ghost Value = { JobView };

    ghost view = { λ job. record { lead = job.lead; changes = job.changes.items } };
}

impl Job {
    /// The job of a lead, of these pages.
    pub fn new(lead: Who, changes: Vec<(Page, Frame)>) -> Job
        ensures lead { result.lead ≡ lead }
        ensures changes { result.changes ≡ changes.items }
    {
        Job { lead, changes }
    }

    /// The client that leads the stabilisation of the association.
    pub fn lead(&self) -> Who
        ensures { result ≡ self.now.lead }
    {
        self.lead
    }

    /// The pages and what each is to have.
    pub fn changes(&self) -> &[(Page, Frame)]
        ensures { result.now ≡ self.now.changes }
    {
        &self.changes
    }
}
