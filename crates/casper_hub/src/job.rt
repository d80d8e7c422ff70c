ghost use Rattle.std.specs.Prelude.{◌≡◌, ◌<◌, ℕ, IfOk, IfSome, IsSome, is_some, option_map, length, Contains};
ghost use Rattle.casper_hub.specs.Committing.{doubtful_in};
ghost use Rattle.casper_hub.specs.HubView.{frame_in};
ghost use Rattle.casper_hub.specs.Jobs.{sealed_in, first_sealed_in, IsJobOf, AreCopiesOf};
ghost use Rattle.casper_hub.specs.Sound.{IsSound};

use crate::Hub;
use crate::pages::Pages;
use casper_frozen::{Job, modified_pages};
use casper_trail::Mark;
use casper_words::{Frame, Memory, Page, Who};
use std::alloc::Global;

impl Hub {
    /// The least lead of a stabilisation that is sealed.
    pub fn first_sealed(&self) -> Option<Who>
        ensures { result ≡ first_sealed_in self.now }
    {
        self.unended.first_sealed()
    }

    /// Whether the stabilisation of a lead is sealed.
    pub fn is_sealed(&self, lead: Who) -> bool
        ensures { result ≡ is_some (sealed_in self.now lead) }
    {
        self.unended.sealed_by(lead).is_some()
    }

    /// The lead of the stabilisation that is in doubt, where one is.
    pub fn doubtful(&self) -> Option<Who>
        ensures { result ≡ option_map (λ one. one.lead) (doubtful_in self.now) }
    {
        let one = self.unended.doubtful()?;
        Some(one.lead)
    }

    /// The pages that the association of a lead has modified, with copies of their frames. None where no stabilisation of that lead is
    /// sealed. It costs the pages, however long the trail is, and nothing changes.
    pub fn job(&self, alloc: Global, lead: Who) -> Result<Option<Job>, Memory>
        ensures sealed { IfOk result (λ job. is_some job ≡ is_some (sealed_in self.now lead)) }
        ensures job { IfOk result (λ job. IfSome job (λ job. IsJobOf self.now lead job)) }
        ensures sound { IsSound self.now }
    {
        let _mark: Option<Mark> = None;
        // So that the proof knows what is true of each hub.
        let _limit = self.limit;
        if !self.is_sealed(lead) {
            return Ok(None);
        }
        let members = self.associations.members(lead);
        let pages = modified_pages(alloc, &self.associations, members)?;
        let changes = copy_each(alloc, &self.pages, &pages)?;
        Ok(Some(Job::new(lead, changes)))
    }
}

/// These pages, each with a copy of its frame.
fn copy_each(alloc: Global, pages: &Pages, each: &[Page]) -> Result<Vec<(Page, Frame)>, Memory>
    requires within { (page : ℕ) → Contains each.now page → page < length pages.now.rights }
    requires framed { (page : ℕ) → Contains each.now page → IsSome (frame_in pages.now page) }
    ensures copies { IfOk result (λ changes. AreCopiesOf pages.now each.now changes.items) }
{
    let mut changes = Vec::with_capacity(alloc, each.len())?;
    for page in each {
        changes.push_reserved((*page, pages.copy(*page)?));
    }
    Ok(changes)
}
