ghost use Rattle.std.specs.Prelude.{IfOk};
ghost use Rattle.std.specs.List.Sorted.{IsStrictlyIncreasing};
ghost use Rattle.casper_assoc.specs.TrailAssociations.{PagesAreWithin};
ghost use Rattle.casper_frozen.specs.Counting.{ArePagesOf, AreWrittenBelow};

use casper_assoc::Associations;
use casper_words::{Crew, Memory, Page, Who};
use std::alloc::Global;

/// The pages that the association with these members has modified, rising, each once. It costs the 32 clients and the pages, however
/// long the trail is.
pub fn modified_pages(
    alloc: Global,
    associations: &Associations,
    members: Crew,
) -> Result<Vec<Page>, Memory>
    ensures pages { IfOk result (λ pages. ArePagesOf associations.now members pages.items) }
    ensures rising { IfOk result (λ pages. IsStrictlyIncreasing pages.items) }
    ensures within { IfOk result (λ pages. PagesAreWithin associations.now pages.items) }
{
    let mut pages = written_by(alloc, associations, members)?;
    pages.sort_unstable();
    Ok(pages)
}

/// The pages that the members labelled, one member after another.
fn written_by(
    alloc: Global,
    associations: &Associations,
    members: Crew,
) -> Result<Vec<Page>, Memory>
    ensures written { IfOk result
        (λ pages. AreWrittenBelow associations.now.labelling.writers members 33 pages.items) }
{
    let mut pages = Vec::new(alloc);
    for number in 1..Who::MOST + 1 {
        if let Some(who) = Who::new(number) {
            if members.has(who) {
                pages.extend_from_slice(associations.written(who))?;
            }
        }
    }
    Ok(pages)
}
