mod files;
mod names;

use crate::{Checked, StoreFault, close_store, open_store};
use casper_disk::{Shelf, Vault};
use casper_words::{Frame, Page};
use std::alloc::Global;
use std::process::Abort;
use std::test::Fail;

/// What a check tells of a store of 1,024 pages and 3 frames.
fn checked(version: u64, used: u32) -> Result<Checked, StoreFault> {
    Ok(Checked {
        pages: 1024,
        frames: 3,
        version,
        used,
    })
}

/// Opens the store of a name, commits page 0 with this number as its first word, and closes the store: what the commit answers.
fn commit_one<H: Shelf>(
    rt: &impl Abort,
    alloc: Global,
    shelf: &mut H,
    name: &[u8],
    number: u64,
) -> Result<Option<u64>, Fail> {
    let mut frame = Frame::zero(alloc)?;
    frame.set(0, number);
    let Ok(mut store) = open_store(alloc, shelf, name) else {
        return Err("open")?;
    };
    assert!(rt; store.pages() >= 1);
    assert!(rt; !store.in_doubt());
    let answer = store.commit(alloc, &[(Page(0), frame)]);
    close_store(shelf, name, store);
    Ok(answer.ok())
}
