ghost use Rattle.std.specs.Prelude.{◌≡◌, ℕ, ◌==◌, ◌&&◌, ◌||◌, not, [], if◌then◌else◌, Some, None};
ghost use Rattle.casper_words.specs.Crew.{IsClient, IsCrew, has_member, crew_of};

use casper_words::{Crew, Right, Who};

/// Who holds a page: any number of readers, or one writer. It takes 8 bytes.
#[derive(Clone, Copy, Debug, PartialEq, Eq, Drop)]
pub enum Holders {
    Readers(Crew),
    Writer(Who),
}

const _: () = prove!(size_of::<Holders>() <= 8);

impl Holders {
    ghost use Rattle.casper_dir.specs.Holding.{right_in, writer_in, reads, writes, is_in_conflict, raised, AreClients};

    /// The holders of a page that nobody holds.
    pub fn none() -> Holders
        ensures none { (client : ℕ) → right_in client result ≡ None }
        ensures clients { AreClients result }
    {
        Holders::Readers(Crew::none())
    }

    /// The clients that hold the page for reading.
    pub fn readers(self) -> Crew
        requires { AreClients self }
        ensures { result ≡ crew_of (λ client. reads (right_in client self)) }
    {
        match self {
            Holders::Readers(crew) => crew,
            Holders::Writer(_) => Crew::none(),
        }
    }

    /// The client that holds the page for writing.
    pub fn writer(self) -> Option<Who>
        ensures { result ≡ writer_in self }
    {
        match self {
            Holders::Readers(_) => None,
            Holders::Writer(who) => Some(who),
        }
    }

    /// A crew and the client that holds the page for writing.
    pub fn with_writer(self, writers: Crew) -> Crew
        requires { IsCrew writers }
        ensures { result
            ≡ crew_of (λ client. has_member client writers || writes (right_in client self)) }
    {
        match self {
            Holders::Readers(_) => writers,
            Holders::Writer(who) => writers.with(who),
        }
    }

    /// The other clients whose right is in conflict with what a client wants.
    pub fn conflicts(self, who: Who, want: Right) -> Crew
        ensures { result
            ≡ crew_of
            (λ client. not (client == who) && is_in_conflict want (right_in client self)) }
    {
        match self {
            Holders::Readers(crew) => match want {
                Right::Read => Crew::none(),
                Right::Write => crew.without(who),
            },
            Holders::Writer(writer) => {
                if writer == who {
                    Crew::none()
                } else {
                    Crew::none().with(writer)
                }
            }
        }
    }

    /// The holders once a client has got a right. A writer that gets the right to read stays a writer.
    pub fn granted(self, who: Who, right: Right) -> Holders
        requires free { crew_of
            (λ client. not (client == who) && is_in_conflict right (right_in client self)) ≡ [] }
        requires client { IsClient who }
        requires clients { AreClients self }
        ensures right { (client : ℕ) → IsClient client
            → right_in client result
            ≡ (if client == who then Some
            (raised (right_in client self) right) else right_in client self) }
        ensures clients { AreClients result }
    {
        match self {
            Holders::Readers(crew) => match right {
                Right::Read => Holders::Readers(crew.with(who)),
                Right::Write => Holders::Writer(who),
            },
            Holders::Writer(_) => Holders::Writer(who),
        }
    }

    /// The holders without one client.
    pub fn released(self, who: Who) -> Holders
        requires { AreClients self }
        ensures right { (client : ℕ) → IsClient client
            → right_in client result ≡ (if client == who then None else right_in client self) }
        ensures clients { AreClients result }
    {
        match self {
            Holders::Readers(crew) => Holders::Readers(crew.without(who)),
            Holders::Writer(writer) => {
                if writer == who {
                    Holders::none()
                } else {
                    Holders::Writer(writer)
                }
            }
        }
    }

    /// The holders without the members of a crew.
    pub fn without(self, members: Crew) -> Holders
        requires { AreClients self }
        ensures right { (client : ℕ) → IsClient client
            → right_in client result
            ≡ (if has_member client members then None else right_in client self) }
        ensures clients { AreClients result }
    {
        match self {
            Holders::Readers(crew) => Holders::Readers(crew.minus(members)),
            Holders::Writer(writer) => {
                if members.has(writer) {
                    Holders::none()
                } else {
                    Holders::Writer(writer)
                }
            }
        }
    }

    /// The holders once the writer keeps the page for reading alone.
    pub fn lowered(self, who: Who) -> Holders
        requires { writer_in self ≡ Some who }
        ensures right { (client : ℕ) → IsClient client
            → right_in client result
            ≡ (if client == who then Some Right.Read else right_in client self) }
        ensures clients { AreClients result }
    {
        let readers = Crew::none().with(who);
        Holders::Readers(readers)
    }
}
