ghost use Rattle.std.specs.Prelude.{◌<◌, ◌^◌};
ghost use Rattle.casper_assoc.specs.TrailAssociations.{pages_in};
ghost use Rattle.casper_frozen.specs.Counting.{CountsPagesOf};

use casper_assoc::Associations;
use casper_words::{Crew, Who};

/// How many pages the association with these members has modified. It costs the 32 clients, however many pages they are.
pub fn count_pages(associations: &Associations, members: Crew) -> u32
    requires short { pages_in associations.now < 2 ^ 32 }
    ensures pages { CountsPagesOf associations.now members result }
{
    let mut count = 0;
    for number in 1..Who::MOST + 1 {
        if let Some(who) = Who::new(number) {
            if members.has(who) {
                count += associations.written(who).len() as u32;
            }
        }
    }
    count
}
