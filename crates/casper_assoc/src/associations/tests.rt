ghost use Rattle.std.specs.Prelude.{◌≡◌, ◌<◌};
ghost use Rattle.casper_assoc.specs.TrailAssociations.{pages_in};

use super::*;
use casper_words::Right;
use std::test::Fail;

/// One step of the table, over clients and pages by their numbers.
#[derive(Clone, Copy, Debug)]
enum Step {
    Call(u32, Op, u32),
    Touch(u32, u32),
    Dissolve(u32),
}

/// Does a step, or nothing where a number is that of no client or no page, or too many calls are open.
fn take_step(all: &mut Associations, step: Step) -> Option<()>
    requires { pages_in all.old ≡ 4 }
    ensures { pages_in all.new ≡ 4 }
{
    match step {
        Step::Call(number, op, page) => call(all, Who::new(number)?, op, page),
        Step::Touch(number, page) => touch(all, Who::new(number)?, page),
        Step::Dissolve(number) => {
            all.dissolve(Who::new(number)?);
            Some(())
        }
    }
}

fn call(all: &mut Associations, who: Who, op: Op, page: u32) -> Option<()>
    requires { pages_in all.old ≡ 4 }
    ensures { pages_in all.new ≡ 4 }
{
    if page >= 4 || all.open_calls(who) >= 100 {
        return None;
    }
    let call = Call {
        op,
        page: Page(page),
        word: 0,
        value: 7,
    };
    all.record(who, &[call]);
    Some(())
}

fn touch(all: &mut Associations, who: Who, page: u32) -> Option<()>
    requires { pages_in all.old ≡ 4 }
    ensures { pages_in all.new ≡ 4 }
{
    if page >= 4 {
        return None;
    }
    let want = Want {
        page: Page(page),
        right: Right::Read,
    };
    all.touch_each(who, &[want]);
    Some(())
}

/// How many members the association of client 2 has, how many open calls the client has, and how many pages it labelled.
fn shown(all: &Associations) -> Option<(u32, u32, usize)> {
    let two = Who::new(2)?;
    Some((
        all.members(two).count(),
        all.open_calls(two),
        all.written(two).len(),
    ))
}

#[test]
fn steps_in_turn(rt: HostRuntime) -> Result<(), Fail> {
    let mut all = Associations::new(rt.alloc(), 4)?;
    assert_eq!(rt; shown(&all), Some((1, 0, 0)));
    let table = [
        (Step::Touch(2, 1), (1, 0, 0)),
        (Step::Call(2, Op::Read, 1), (1, 1, 0)),
        (Step::Call(2, Op::Write, 1), (1, 2, 1)),
        (Step::Call(2, Op::Write, 1), (1, 3, 1)),
        (Step::Touch(3, 2), (1, 3, 1)),
        (Step::Touch(3, 1), (2, 3, 1)),
        (Step::Call(3, Op::Write, 2), (2, 3, 1)),
        (Step::Touch(4, 3), (2, 3, 1)),
        (Step::Touch(4, 2), (3, 3, 1)),
        (Step::Call(2, Op::Touch, 3), (3, 3, 1)),
        (Step::Dissolve(5), (3, 3, 1)),
        (Step::Dissolve(4), (1, 0, 0)),
        (Step::Touch(3, 1), (1, 0, 0)),
    ];
    for (step, expected) in table {
        take_step(&mut all, step).ok_or("no such client or page")?;
        assert_eq!(rt; shown(&all), Some(expected));
    }
    Ok(())
}
