use crate::tests::{checked, commit_one};
use crate::{Checked, StoreFault, check, format};
use casper_disk::MemShelf;
use casper_report::Refusal;
use std::test::Fail;

#[test]
fn a_store_is_made_and_changed(rt: HostRuntime) -> Result<(), Fail> {
    let alloc = rt.alloc();
    let mut shelf = MemShelf::new(alloc, 64, &[])?;
    assert_eq!(rt; format(alloc, &mut shelf, b"s", 1024, 3), Ok(()));
    assert_eq!(rt; check(alloc, &mut shelf, b"s"), checked(1, 0));
    assert_eq!(rt; commit_one(&rt, alloc, &mut shelf, b"s", 7)?, Some(2));
    assert_eq!(rt; check(alloc, &mut shelf, b"s"), checked(2, 2));
    Ok(())
}

#[test]
fn names_are_refused(rt: HostRuntime) -> Result<(), Fail> {
    let alloc = rt.alloc();
    let mut shelf = MemShelf::new(alloc, 64, &[])?;
    let missing: Result<Checked, StoreFault> = Err(StoreFault::Refused(Refusal::NoSuch));
    let exists: Result<(), StoreFault> = Err(StoreFault::Refused(Refusal::Exists));
    assert_eq!(rt; check(alloc, &mut shelf, b"s"), missing);
    assert_eq!(rt; format(alloc, &mut shelf, b"s", 8, 2), Ok(()));
    assert_eq!(rt; format(alloc, &mut shelf, b"s", 8, 2), exists);
    Ok(())
}

/// The sizes are looked at before the name.
#[test]
fn sizes_are_refused(rt: HostRuntime) -> Result<(), Fail> {
    let alloc = rt.alloc();
    let mut shelf = MemShelf::new(alloc, 64, &[])?;
    assert_eq!(rt; format(alloc, &mut shelf, b"s", 8, 2), Ok(()));
    for (pages, frames) in [(0, 3), (16_385, 3), (1, 1), (1, 65_537), (1, u32::MAX)] {
        let refusal = Refusal::BadSize { pages, frames };
        let answer = format(alloc, &mut shelf, b"s", pages, frames);
        assert_eq!(rt;
            answer,
            Err(StoreFault::Refused(refusal)),
            "{pages} and {frames}"
        );
    }
    Ok(())
}

/// The making fails, and after a new store is made, its opening does.
#[test]
fn a_shelf_that_fails(rt: HostRuntime) -> Result<(), Fail> {
    let alloc = rt.alloc();
    let mut shelf = MemShelf::new(alloc, 64, &[1, 3])?;
    let fault: Result<(), StoreFault> = Err(StoreFault::Disk);
    assert_eq!(rt; format(alloc, &mut shelf, b"s", 1024, 3), fault);
    assert_eq!(rt; format(alloc, &mut shelf, b"s", 1024, 3), Ok(()));
    assert_eq!(rt;
        check(alloc, &mut shelf, b"s").err(),
        Some(StoreFault::Disk)
    );
    assert_eq!(rt; check(alloc, &mut shelf, b"s"), checked(1, 0));
    Ok(())
}

/// The disk has room for three calls, and a format makes six.
#[test]
fn a_disk_that_fails(rt: HostRuntime) -> Result<(), Fail> {
    let alloc = rt.alloc();
    let mut shelf = MemShelf::new(alloc, 3, &[])?;
    let fault: Result<(), StoreFault> = Err(StoreFault::Disk);
    assert_eq!(rt; format(alloc, &mut shelf, b"s", 1024, 3), fault);
    let refused = StoreFault::Refused(Refusal::NoRoot);
    assert_eq!(rt; check(alloc, &mut shelf, b"s").err(), Some(refused));
    Ok(())
}
