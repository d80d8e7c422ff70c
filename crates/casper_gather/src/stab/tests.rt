use super::*;
use std::test::Fail;

#[test]
fn gathers_and_ends(rt: HostRuntime) -> Result<(), Fail> {
    let one = Who::new(1).ok_or("no client")?;
    let two = Who::new(2).ok_or("no client")?;
    let three = Who::new(3).ok_or("no client")?;
    let mut stab = Stab::begin(one, 1, Crew::none().with(two).with(three));
    stab.handed(two);
    assert_eq!(rt; stab.phase, Phase::Gathering);
    stab.handed(three);
    assert_eq!(rt; stab.phase, Phase::Sealed);
    stab.ask(three);
    stab.ask(two);
    stab.forget(two);
    let told = Crew::none().with(one).with(three);
    assert_eq!(rt; stab.resolve(Outcome::Worn), Resolved::Fail(told));
    stab.note(three);
    stab.note(two);
    assert_eq!(rt; stab.resolve(Outcome::Worn), Resolved::Undo(three));
    assert_eq!(rt; stab.resolve(Outcome::Ok(2)), Resolved::Commit(told));
    let Resolved::Doubt(doubtful) = stab.resolve(Outcome::Doubt) else {
        return Err(Fail::from("no doubt"));
    };
    assert_eq!(rt; doubtful.phase, Phase::Doubt);
    assert_eq!(rt; doubtful.resolve(Outcome::Ok(2)), Resolved::Commit(told));
    Ok(())
}
