ghost use Rattle.std.specs.Prelude.{◌≡◌, ◌<◌, length};

use super::*;
use std::test::Fail;

/// Grants where nobody is in conflict, and says whether it did.
fn granted(directory: &mut Directory, page: Page, who: Who, right: Right) -> bool
    requires { page < length directory.old }
    ensures { length directory.new ≡ length directory.old }
{
    if directory.conflicts(page, who, right).least().is_some() {
        return false;
    }
    directory.grant(page, who, right);
    true
}

#[test]
fn rights_after_calls(rt: HostRuntime) -> Result<(), Fail> {
    let one = Who::new(1).ok_or("no client")?;
    let two = Who::new(2).ok_or("no client")?;
    let mut directory = Directory::new(rt.alloc(), 2)?;
    assert!(rt; granted(&mut directory, Page(1), one, Right::Read));
    assert!(rt; granted(&mut directory, Page(1), two, Right::Read));
    assert_eq!(rt;
        directory.readers(Page(1)),
        Crew::none().with(one).with(two)
    );
    assert!(rt;
        !granted(&mut directory, Page(1), one, Right::Write),
        "beside a reader"
    );
    directory.release(Page(1), two);
    assert!(rt; granted(&mut directory, Page(1), one, Right::Write));
    assert_eq!(rt; directory.writer(Page(1)), Some(one));
    assert_eq!(rt; directory.writers(), Crew::none().with(one));
    assert_eq!(rt; directory.readers(Page(1)), Crew::none());
    assert!(rt;
        !granted(&mut directory, Page(1), two, Right::Read),
        "beside a writer"
    );
    if directory.writer(Page(1)) == Some(one) {
        directory.lower(Page(1), one);
    }
    assert_eq!(rt; directory.writer(Page(1)), None);
    assert_eq!(rt; directory.readers(Page(1)), Crew::none().with(one));
    directory.revoke(Crew::none().with(one).with(two));
    assert_eq!(rt; directory.readers(Page(1)), Crew::none());
    Ok(())
}
