use super::*;
use std::test::Fail;

#[test]
fn they_begin_change_and_end(rt: HostRuntime) -> Result<(), Fail> {
    let one = Who::new(1).ok_or("no client")?;
    let two = Who::new(2).ok_or("no client")?;
    let three = Who::new(3).ok_or("no client")?;
    let mut all = Unended::new(rt.alloc());
    for lead in [one, two] {
        if all.reserve().is_err() {
            return Err(Fail::from("no memory"));
        }
        all.begin(Stab::begin(lead, lead.number(), Crew::none().with(three)));
    }
    assert_eq!(rt; all.first_sealed(), None);
    let mut second = all.led_by(two).ok_or("not found")?;
    second.handed(three);
    all.change(second);
    assert_eq!(rt; all.first_sealed(), Some(two));
    assert_eq!(rt; all.sealed_by(two), Some(second));
    assert_eq!(rt;
        all.led_among(Crew::none().with(two).with(three)),
        Some(second)
    );
    assert_eq!(rt; all.doubtful(), None);
    all.forget(two);
    second.forget(two);
    assert_eq!(rt; all.led_by(two), Some(second));
    all.end(Crew::none().with(one));
    assert_eq!(rt; all.led_by(one), None);
    assert_eq!(rt; all.led_by(two), Some(second));
    Ok(())
}
