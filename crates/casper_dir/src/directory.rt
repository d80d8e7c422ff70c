ghost use Rattle.std.specs.Prelude.{◌≡◌, ℕ, ◌<◌, ◌↔◌, [], true, length, Some, None, IfOk};
ghost use Rattle.casper_words.specs.Crew.{has_member};
ghost use Rattle.casper_dir.specs.Holding.{raised};
ghost use Rattle.casper_dir.specs.Rights.{right_at, writer_at, readers_at, conflicts_at, writers_in, ChangesOneRight, RevokesRights, AreAllClients};

use crate::holders::Holders;
use casper_words::{Crew, Memory, Page, Right, Who};
use std::alloc::Global;
use std::marker::Model;

/// Who holds which page of a store. Contracts see the holders of each page, a list of one value a page:
/// its readers, or its writer.
#[derive(Drop)]
pub struct Directory {
    pages: Vec<Holders>,
}

impl Model for Directory {
    ghost use Rattle.std.specs.Prelude.{List};
    ghost use Rattle.casper_dir.specs.declared.holders.Holders.{Holders};
    ghost use Rattle.casper_dir.specs.Rights.{AreAllClients};

    ghost Value = { List Holders };

    ghost view = { λ directory. directory.pages.items };

    ghost invariant = { λ directory. AreAllClients directory.pages.items };
}

impl Directory {
    /// The directory of a store of so many pages, which nobody holds. No other call takes memory.
    pub fn new(alloc: Global, pages: u32) -> Result<Directory, Memory>
        ensures pages { IfOk result (λ rights. length rights ≡ pages) }
        ensures none { IfOk result (λ rights. (client page : ℕ)
            → right_at rights client page ≡ None) }
        ensures clients { IfOk result (λ rights. AreAllClients rights) }
    {
        let mut holders = Vec::with_capacity(alloc, pages as usize)?;
        for _page in 0..pages {
            holders.push(Holders::none())?;
        }
        Ok(Directory { pages: holders })
    }

    /// The clients that hold a page for reading.
    pub fn readers(&self, page: Page) -> Crew
        requires { page < length self.now }
        ensures readers { result ≡ readers_at self.now page }
        ensures clients { AreAllClients self.now }
    {
        self.pages[page.0 as usize].readers()
    }

    /// The client that holds a page for writing.
    pub fn writer(&self, page: Page) -> Option<Who>
        requires { page < length self.now }
        ensures writer { result ≡ writer_at self.now page }
        ensures clients { AreAllClients self.now }
    {
        self.pages[page.0 as usize].writer()
    }

    /// The other clients whose right to a page is in conflict with what a client wants: with reading the
    /// writer, with writing every other holder.
    pub fn conflicts(&self, page: Page, who: Who, right: Right) -> Crew
        requires { page < length self.now }
        ensures conflicts { result ≡ conflicts_at self.now page who right }
        ensures clients { AreAllClients self.now }
    {
        self.pages[page.0 as usize].conflicts(who, right)
    }

    /// The clients that hold some page for writing. It goes over all pages once.
    pub fn writers(&self) -> Crew
        ensures writers { result ≡ writers_in self.now }
        ensures each { (client : ℕ) → (has_member client result ≡ true)
            ↔ ((page : ℕ) × (right_at self.now client page ≡ Some Right.Write)) }
        ensures clients { AreAllClients self.now }
    {
        writers_of(&self.pages)
    }

    /// Gives a client a right to a page. A writer that gets the right to read stays a writer.
    pub fn grant(&mut self, page: Page, who: Who, right: Right)
        requires page { page < length self.old }
        requires free { conflicts_at self.old page who right ≡ [] }
        ensures pages { length self.new ≡ length self.old }
        ensures rights { ChangesOneRight self.old self.new who page
            (Some (raised (right_at self.old who page) right)) }
        ensures clients { AreAllClients self.new }
    {
        let number = who.number();
        prove!(1 <= number && number <= Who::MOST);
        let holders = &mut self.pages[page.0 as usize];
        *holders = holders.granted(who, right);
    }

    /// Takes a client's right to a page away, where it has one.
    pub fn release(&mut self, page: Page, who: Who)
        requires { page < length self.old }
        ensures pages { length self.new ≡ length self.old }
        ensures rights { ChangesOneRight self.old self.new who page None }
        ensures clients { AreAllClients self.new }
    {
        let holders = &mut self.pages[page.0 as usize];
        *holders = holders.released(who);
    }

    /// Leaves the writer of a page the right to read.
    pub fn lower(&mut self, page: Page, who: Who)
        requires page { page < length self.old }
        requires writer { writer_at self.old page ≡ Some who }
        ensures pages { length self.new ≡ length self.old }
        ensures rights { ChangesOneRight self.old self.new who page (Some Right.Read) }
        ensures clients { AreAllClients self.new }
    {
        let holders = &mut self.pages[page.0 as usize];
        *holders = holders.lowered(who);
    }

    /// Takes all rights of these clients away. It goes over all pages once.
    pub fn revoke(&mut self, members: Crew)
        ensures pages { length self.new ≡ length self.old }
        ensures rights { RevokesRights self.old self.new members }
        ensures clients { AreAllClients self.new }
    {
        release_each(&mut self.pages, members);
    }
}

/// The clients that hold some of these pages for writing.
fn writers_of(pages: &[Holders]) -> Crew
    ensures { result ≡ writers_in pages.now }
{
    let mut writers = Crew::none();
    for holders in pages {
        writers = holders.with_writer(writers);
    }
    writers
}

/// Takes these clients out of the holders of each page.
fn release_each(pages: &mut [Holders], members: Crew)
    requires { AreAllClients pages.old }
    ensures rights { RevokesRights pages.old pages.new members }
    ensures clients { AreAllClients pages.new }
{
    for holders in pages.iter_mut() {
        *holders = holders.without(members);
    }
}

#[cfg(test)]
mod tests;
