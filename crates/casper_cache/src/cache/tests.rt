use super::*;
use std::test::Fail;

/// A cache that holds the pages below a number for writing, the greatest the most recently used.
fn filled(alloc: Global, pages: u32) -> Result<Cache, Memory> {
    let who = Who::new(1).ok_or(Memory)?;
    let mut cache = Cache::new(alloc, who, 8)?;
    for page in 0..pages {
        if cache.over() == 0 {
            let frame = Frame::zero(alloc)?;
            cache
                .install(Page(page), Right::Write, frame)
                .map_err(|refused| refused.1)?;
        }
    }
    Ok(cache)
}

#[test]
fn misses(rt: HostRuntime) -> Result<(), Fail> {
    let mut cache = filled(rt.alloc(), 5)?;
    assert_eq!(rt; cache.hit_read(Page(0), 0), None, "no room");
    assert!(rt; !cache.hit_write(Page(0), 0, 1), "no room");
    cache.clear_pending();
    cache.allow(2);
    assert_eq!(rt; cache.hit_read(Page(9), 0), None, "not held");
    assert!(rt; !cache.hit_write(Page(9), 0, 1), "not held");
    if cache.right(Page(0)).is_some() {
        cache.give_up(Page(0), true);
    }
    assert_eq!(rt; cache.right(Page(0)), Some(Right::Read));
    assert!(rt; !cache.hit_write(Page(0), 0, 1), "held for reading");
    assert_eq!(rt; cache.first_to_write(), Some(Page(4)));
    let last = cache.evict(2);
    assert_eq!(rt; last.as_slice(), [Page(0), Page(1)].as_slice());
    assert_eq!(rt; cache.room(), 2);
    Ok(())
}

#[test]
fn hits(rt: HostRuntime) -> Result<(), Fail> {
    let mut cache = filled(rt.alloc(), 5)?;
    cache.clear_pending();
    cache.allow(2);
    assert!(rt; cache.hit_write(Page(1), 3, 7));
    assert_eq!(rt; cache.hit_read(Page(1), 3), Some(7));
    assert_eq!(rt; cache.room(), 0);
    assert_eq!(rt; cache.pending().as_slice().len(), 2);
    cache.clear_pending();
    if cache.right(Page(2)).is_some() {
        cache.front(Page(2));
    }
    let last = cache.evict(2);
    assert_eq!(rt; last.as_slice(), [Page(0), Page(3)].as_slice());
    assert_eq!(rt; cache.frame(Page(1)).map(|frame| frame.get(3)), Some(7));
    if cache.right(Page(1)).is_some() {
        cache.give_up(Page(1), false);
    }
    assert_eq!(rt; cache.right(Page(1)), None);
    assert_eq!(rt; cache.over(), 0);
    cache.clear();
    assert_eq!(rt; cache.right(Page(2)), None);
    Ok(())
}
