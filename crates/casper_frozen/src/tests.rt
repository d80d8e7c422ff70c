ghost use Rattle.std.specs.Prelude.{◌≡◌, ◌<◌, IfOk};
ghost use Rattle.casper_assoc.specs.TrailAssociations.{pages_in};

use super::*;
use casper_assoc::Associations;
use casper_gather::{Phase, Stab, Unended};
use casper_words::{Call, Crew, Op, Page, Right, Want, Who};
use std::alloc::Global;
use std::test::Fail;

fn client(number: u32) -> Result<Who, Fail> {
    let who = Who::new(number).ok_or("no client")?;
    Ok(who)
}

/// A client takes a page, and writes it where that is asked for.
fn take(all: &mut Associations, who: Who, page: u32, writes: bool)
    requires pages { pages_in all.old ≡ 4 }
    requires page { page < 4 }
    ensures { pages_in all.new ≡ 4 }
{
    all.touch(who, Page(page));
    if writes && all.open_calls(who) < 100 {
        let call = Call {
            op: Op::Write,
            page: Page(page),
            word: 0,
            value: 7,
        };
        all.record(who, &[call]);
    }
}

/// Four pages: clients 1 and 2 have page 0, which client 1 wrote, client 3 wrote page 1, and clients 4 and up are alone.
fn taken(alloc: Global) -> Result<Associations, Fail>
    ensures { IfOk result (λ all. pages_in all ≡ 4) }
{
    let mut all = Associations::new(alloc, 4)?;
    take(&mut all, client(1)?, 0, true);
    take(&mut all, client(2)?, 0, false);
    take(&mut all, client(3)?, 1, true);
    take(&mut all, client(4)?, 2, false);
    Ok(all)
}

/// The stabilisation of this lead begins, which awaits these clients.
fn begin(unended: &mut Unended, lead: Who, left: Crew) -> Result<(), Fail> {
    unended.reserve()?;
    unended.begin(Stab::begin(lead, lead.number(), left));
    Ok(())
}

/// Client 1's stabilisation gathers, and client 3's is sealed.
fn begun(alloc: Global) -> Result<Unended, Fail> {
    let mut unended = Unended::new(alloc);
    begin(&mut unended, client(1)?, Crew::none().with(client(2)?))?;
    begin(&mut unended, client(3)?, Crew::none())?;
    Ok(unended)
}

fn want(page: u32) -> Want
    ensures { result.page ≡ page }
{
    Want {
        page: Page(page),
        right: Right::Read,
    }
}

/// What a client is refused with that lacks these two pages.
fn refused(unended: &Unended, all: &Associations, number: u32, pages: (u32, u32)) -> Option<Refusal>
    requires { pages_in all.now ≡ 4 }
{
    if pages.0 >= 4 || pages.1 >= 4 {
        return None;
    }
    let missing = [want(pages.0), want(pages.1)];
    refusal_of(unended, all, Who::new(number)?, &missing)
}

/// How many pages the association of this client has modified.
fn counted(all: &Associations, number: u32) -> Option<u32>
    requires { pages_in all.now ≡ 4 }
{
    let members = all.members(Who::new(number)?);
    Some(count_pages(all, members))
}

#[test]
fn pages_of_all_members_are_counted(rt: HostRuntime) -> Result<(), Fail> {
    let mut all = taken(rt.alloc())?;
    take(&mut all, client(2)?, 3, true);
    take(&mut all, client(2)?, 0, true);
    let table = [(1, 2), (2, 2), (3, 1), (4, 0), (32, 0)];
    for (number, pages) in table {
        assert_eq!(rt; counted(&all, number), Some(pages));
    }
    Ok(())
}

#[test]
fn members_have_a_stabilisation(rt: HostRuntime) -> Result<(), Fail> {
    let all = taken(rt.alloc())?;
    let unended = begun(rt.alloc())?;
    let table = [
        (1, Some(1), Some(1)),
        (2, Some(1), Some(1)),
        (3, Some(3), None),
        (4, None, None),
    ];
    for (number, lead, gathers) in table {
        let who = client(number)?;
        let found = member_of(&unended, &all, who).map(|one| one.lead.number());
        assert_eq!(rt; found, lead);
        let gathering = gathering_of(&unended, &all, who).map(|one| one.lead.number());
        assert_eq!(rt; gathering, gathers);
    }
    Ok(())
}

#[test]
fn frozen_pages_are_refused(rt: HostRuntime) -> Result<(), Fail> {
    let all = taken(rt.alloc())?;
    let unended = begun(rt.alloc())?;
    let first = Some(Refusal::Frozen(client(1)?));
    let third = Some(Refusal::Frozen(client(3)?));
    let table = [
        (2, (2, 3), first),
        (3, (0, 2), third),
        (4, (2, 3), None),
        (4, (0, 1), first),
        (4, (1, 0), third),
        (4, (3, 1), third),
    ];
    for (number, pages, expected) in table {
        assert_eq!(rt; refused(&unended, &all, number, pages), expected);
    }
    assert_eq!(rt; refusal_of(&unended, &all, client(1)?, &[]), None);
    let none = Unended::new(rt.alloc());
    assert_eq!(rt; refused(&none, &all, 4, (0, 1)), None);
    Ok(())
}

#[test]
fn a_doubt_counts_first(rt: HostRuntime) -> Result<(), Fail> {
    let all = taken(rt.alloc())?;
    let mut unended = begun(rt.alloc())?;
    let one = unended.led_by(client(3)?).ok_or("not found")?;
    unended.change(Stab {
        phase: Phase::Doubt,
        ..one
    });
    let first = Some(Refusal::Frozen(client(1)?));
    let doubt = Some(Refusal::InDoubt);
    let table = [
        (1, (2, 3), first),
        (1, (1, 2), doubt),
        (3, (0, 2), doubt),
        (4, (0, 2), first),
        (4, (0, 1), doubt),
    ];
    for (number, pages, expected) in table {
        assert_eq!(rt; refused(&unended, &all, number, pages), expected);
    }
    Ok(())
}
