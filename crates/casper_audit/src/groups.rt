ghost use Rattle.std.specs.Prelude.{◌≡◌, ◌≤◌, ℕ, cond};
ghost use Rattle.casper_words.specs.Crew.{IsClient, has_member};
ghost use Rattle.casper_trail.specs.Association.{alone};
ghost use Rattle.casper_audit.specs.Groups.{group_in, joint};

use casper_words::{Crew, Who};

/// The association of each client.
#[derive(Drop)]
pub(crate) struct Groups {
    crews: [Crew; 32],
}

impl Groups {
    /// Each client alone.
    pub(crate) fn new() -> Groups
        ensures { (client : ℕ) → IsClient client → group_in result client ≡ alone client }
    {
        let mut groups = Groups {
            crews: [Crew::none(); 32],
        };
        for below in 0..Who::MOST {
            groups.crews[below as usize] = alone_in(client(below + 1));
        }
        groups
    }

    /// The association of a client.
    pub(crate) fn of(&self, who: Who) -> Crew
        ensures group { result ≡ group_in self.now who }
        ensures client { IsClient who }
    {
        self.crews[(who.number() - 1) as usize]
    }

    /// Makes the associations of two clients one.
    pub(crate) fn unite(&mut self, one: Who, other: Who)
        ensures { (client : ℕ) → IsClient client → group_in self.new client
            ≡ cond (has_member client (joint self.old one other)) (joint self.old one other)
            (group_in self.old client) }
    {
        let all = self.of(one).union(self.of(other));
        for below in 0..Who::MOST {
            let own = self.crews[below as usize];
            self.crews[below as usize] = chosen(all.has(client(below + 1)), all, own);
        }
    }

    /// Makes each of these clients alone.
    pub(crate) fn part(&mut self, members: Crew)
        ensures { (client : ℕ) → IsClient client → group_in self.new client
            ≡ cond (has_member client members) (alone client) (group_in self.old client) }
    {
        for below in 0..Who::MOST {
            let who = client(below + 1);
            let own = self.crews[below as usize];
            self.crews[below as usize] = chosen(members.has(who), alone_in(who), own);
        }
    }
}

/// One of two crews.
fn chosen(first: bool, one: Crew, other: Crew) -> Crew
    ensures { result ≡ cond first one other }
{
    if first { one } else { other }
}

/// A client alone.
fn alone_in(who: Who) -> Crew
    ensures { result ≡ alone who }
{
    Crew::none().with(who)
}

/// The client of a number.
pub(crate) fn client(number: u32) -> Who
    requires least { 1 ≤ number }
    requires most { number ≤ 32 }
    ensures { result ≡ number }
{
    Who::new(number).unwrap()
}
