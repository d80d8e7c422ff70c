use crate::tests::{checked, commit_one};
use crate::{StoreFault, check, format};
use casper_disk::FileShelf;
use casper_report::Refusal;
use std::fs;
use std::test::Fail;

#[test]
fn a_store_in_a_file(rt: HostRuntime) -> Result<(), Fail> {
    let path = "casper_stores_file_test";
    let name = path.as_bytes();
    let alloc = rt.alloc();
    let _old = fs::remove_file(&rt, path);
    let mut shelf = FileShelf::new(rt.clone()?);
    let missing = check(alloc, &mut shelf, name).err();
    assert_eq!(rt; missing, Some(StoreFault::Refused(Refusal::NoSuch)));
    assert_eq!(rt; format(alloc, &mut shelf, name, 1024, 3), Ok(()));
    assert_eq!(rt; check(alloc, &mut shelf, name), checked(1, 0));
    assert_eq!(rt; commit_one(&rt, alloc, &mut shelf, name, 7)?, Some(2));
    assert_eq!(rt; check(alloc, &mut shelf, name), checked(2, 2));
    fs::remove_file(&rt, path)?;
    Ok(())
}
