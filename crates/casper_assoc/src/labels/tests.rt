ghost use Rattle.std.specs.Prelude.{◌≡◌, ◌<◌, length};

use super::*;
use std::test::Fail;

/// One step of the table, over clients by their numbers. The page is always page 1.
#[derive(Clone, Copy, Debug)]
enum Step {
    Wrote(u32),
    Merge(u32, u32),
    Dissolve(u32),
}

/// Does a step, or nothing where a number is that of no client.
fn take_step(labels: &mut Labels, step: Step) -> Option<()>
    requires { 1 < length labels.old.writers }
    ensures { length labels.new.writers ≡ length labels.old.writers }
{
    match step {
        Step::Wrote(who) => labels.wrote(Page(1), Who::new(who)?),
        Step::Merge(one, other) => {
            let a = labels.label(Who::new(one)?);
            let b = labels.label(Who::new(other)?);
            labels.merge(a, b);
        }
        Step::Dissolve(who) => {
            let label = labels.label(Who::new(who)?);
            labels.dissolve(label);
        }
    }
    Some(())
}

/// How many clients the part of a client has, and whether the page has its label.
fn part_of(labels: &Labels, who: Who) -> (u32, bool)
    requires { 1 < length labels.now.writers }
{
    let label = labels.label(who);
    let members = labels.members(label).count();
    (members, labels.page_label(Page(1)) == Some(label))
}

#[test]
fn steps_in_turn(rt: HostRuntime) -> Result<(), Fail> {
    let two = Who::new(2).ok_or("no client")?;
    let mut labels = Labels::new(rt.alloc(), 2)?;
    assert_eq!(rt; part_of(&labels, two), (1, false));
    let table = [
        (Step::Wrote(1), (1, false)),
        (Step::Merge(2, 1), (2, true)),
        (Step::Merge(3, 4), (2, true)),
        (Step::Merge(4, 2), (4, true)),
        (Step::Wrote(3), (4, true)),
        (Step::Merge(5, 6), (4, true)),
        (Step::Dissolve(5), (4, true)),
        (Step::Dissolve(3), (1, false)),
        (Step::Wrote(2), (1, true)),
    ];
    for (step, part) in table {
        take_step(&mut labels, step).ok_or("no client")?;
        assert_eq!(rt; part_of(&labels, two), part);
    }
    assert_eq!(rt; labels.written(two), [Page(1)].as_slice());
    Ok(())
}
