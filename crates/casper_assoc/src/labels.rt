ghost use Rattle.std.specs.Prelude.{◌≡◌, ◌<◌, ℕ, ◌==◌, length, slice_index, slice_index_or, Some, None, IfOk, IfSome, if◌then◌else◌};
ghost use Rattle.casper_words.specs.Crew.{IsClient};
ghost use Rattle.casper_assoc.specs.Labelling.{label_of, clients_labelled, writer_of, page_label_of, IsLabel, IsSound, AreAlone, Renames, SetsApart, MergesParts, DissolvesPart, UnlabelsPages, LabelsPage};
ghost use Rattle.casper_assoc.specs.Written.{AreWrittenBy, ForgetsPart};

use crate::writers::Writers;
use casper_words::{Crew, Memory, Page, Who};
use std::alloc::Global;
use std::marker::Model;

/// The parts into which the 32 clients fall, and for each page with a label the part to which it belongs. A label is the number of
/// a client of its part. Contracts see the label of each client, and for each page the client that labelled it, if there is
/// one: the page's label is that client's.
#[derive(Drop)]
pub struct Labels {
    labels: [u32; Who::PLACES],
    pages: Writers,
}

impl Model for Labels {
    ghost use Rattle.casper_assoc.specs.Labelling.{Labelling, IsSound};

    ghost Value = { Labelling };

    ghost view = { λ labels. record { labels = labels.labels; writers = labels.pages } };

    ghost invariant = { λ labels. IsSound (record { labels = labels.labels; writers = labels.pages }) };
}

impl Labels {
    /// Labels for a store of so many pages: each client is a part by itself, and no page has a label. It takes the memory for
    /// the pages of each client, so no other call takes any.
    pub fn new(alloc: Global, pages: u32) -> Result<Labels, Memory>
        ensures alone { IfOk result (λ labels. AreAlone labels) }
        ensures unlabelled { IfOk result (λ labels. (page : ℕ) → writer_of labels page ≡ None) }
        ensures pages { IfOk result (λ labels. length labels.writers ≡ pages) }
        ensures sound { IfOk result (λ labels. IsSound labels) }
    {
        let writers = Writers::new(alloc, pages)?;
        Ok(Labels {
            labels: own_numbers(),
            pages: writers,
        })
    }

    /// The label of a client's part.
    pub fn label(&self, who: Who) -> u32
        ensures label { result ≡ label_of self.now who }
        ensures is_label { IsLabel self.now result }
        ensures sound { IsSound self.now }
        ensures client { IsClient who }
    {
        self.labels[who.number() as usize]
    }

    /// The clients of a part.
    pub fn members(&self, label: u32) -> Crew
        requires { IsLabel self.now label }
        ensures members { result ≡ clients_labelled self.now label }
        ensures sound { IsSound self.now }
    {
        let mut members = Crew::none();
        for number in 1..Who::MOST + 1 {
            if let Some(who) = Who::new(number) {
                if self.labels[number as usize] == label {
                    members = members.with(who);
                }
            }
        }
        members
    }

    /// Unites two parts under the label of the first. The pages of both then have that label. Nothing changes where both are one.
    pub fn merge(&mut self, a: u32, b: u32)
        requires first { IsLabel self.old a }
        requires second { IsLabel self.old b }
        ensures parts { MergesParts self.old self.new a b }
        ensures pages { self.new.writers ≡ self.old.writers }
        ensures sound { IsSound self.new }
    {
        rename(&mut self.labels, a, b);
    }

    /// Makes each client of a part a part by itself. The pages of the part have no label then.
    pub fn dissolve(&mut self, label: u32)
        requires { IsLabel self.old label }
        ensures parts { DissolvesPart self.old self.new label }
        ensures pages { UnlabelsPages self.old self.new label }
        ensures count { length self.new.writers ≡ length self.old.writers }
        ensures sound { IsSound self.new }
    {
        release_part(&mut self.pages, &self.labels, label);
        set_apart(&mut self.labels, label);
    }

    /// The label of a page, where it has one.
    pub fn page_label(&self, page: Page) -> Option<u32>
        requires { page < length self.now.writers }
        ensures label { result ≡ page_label_of self.now page }
        ensures is_label { IfSome result (λ label. IsLabel self.now label) }
        ensures sound { IsSound self.now }
    {
        let who = self.pages.writer(page)?;
        Some(self.label(who))
    }

    /// Labels a page with the part of a client that writes it. A page that has a label keeps it: who may write it belongs to
    /// that part since the page was granted.
    pub fn wrote(&mut self, page: Page, who: Who)
        requires { page < length self.old.writers }
        ensures page { LabelsPage self.old self.new page who }
        ensures parts { self.new.labels ≡ self.old.labels }
        ensures count { length self.new.writers ≡ length self.old.writers }
        ensures sound { IsSound self.new }
    {
        self.pages.label(page, who);
    }

    /// The pages that a client labelled, each once. Those of all clients of a part are the pages with its label.
    pub fn written(&self, who: Who) -> &[Page]
        ensures pages { AreWrittenBy self.now.writers who result.now }
        ensures sound { IsSound self.now }
    {
        self.pages.written(who)
    }
}

/// Each place with its own number.
fn own_numbers() -> [u32; Who::PLACES]
    ensures count { length result ≡ 33 }
    ensures own { (place : ℕ) → place < 33 → slice_index result place ≡ place }
{
    let mut labels = [0; Who::PLACES];
    for place in 0..Who::PLACES {
        labels[place] = place as u32;
    }
    labels
}

/// Gives the first label in place of the second.
fn rename(labels: &mut [u32; Who::PLACES], a: u32, b: u32)
    ensures count { length labels.new ≡ length labels.old }
    ensures renamed { Renames labels.old labels.new a b }
{
    for label in labels.iter_mut() {
        if *label == b {
            *label = a;
        }
    }
}

/// Gives each place with a label its own number.
fn set_apart(labels: &mut [u32; Who::PLACES], label: u32)
    ensures count { length labels.new ≡ length labels.old }
    ensures own { SetsApart labels.old labels.new label }
{
    for place in 0..Who::PLACES {
        if labels[place] == label {
            labels[place] = place as u32;
        }
    }
}

/// Forgets the pages of each client that has a label.
fn release_part(pages: &mut Writers, labels: &[u32; Who::PLACES], label: u32)
    requires { (page who : ℕ) → slice_index_or pages.old page None ≡ Some who → IsClient who }
    ensures count { length pages.new ≡ length pages.old }
    ensures writers { ForgetsPart labels.now label pages.old pages.new }
{
    for number in 1..Who::MOST + 1 {
        if let Some(who) = Who::new(number) {
            if labels[number as usize] == label {
                pages.release(who);
            }
        }
    }
}

#[cfg(test)]
mod tests;
