use super::*;
use std::test::Fail;

/// A frame whose first word is this.
fn marked(alloc: Global, mark: u64) -> Result<Frame, Memory> {
    let mut frame = Frame::zero(alloc)?;
    frame.set(0, mark);
    Ok(frame)
}

#[test]
fn drops_in_the_order_of_keeping(rt: HostRuntime) -> Result<(), Fail> {
    // The page that is kept, and the page that this drops, with a bound of 8.
    let table = [
        (0, None),
        (1, None),
        (2, None),
        (3, None),
        (4, None),
        (5, None),
        (6, None),
        (7, None),
        (0, None),
        (8, Some(1)),
        (3, None),
        (9, Some(2)),
        (10, Some(4)),
        (1, Some(5)),
    ];
    let mut clean = CleanFrames::new(rt.alloc(), 8)?;
    for (page, dropped) in table {
        let frame = Frame::zero(rt.alloc())?;
        let kept = clean.keep(Page(page), frame).map_err(|refused| refused.1)?;
        assert_eq!(rt; kept, dropped.map(|page| Page(page)));
    }
    Ok(())
}

#[test]
fn finds_the_last_frame(rt: HostRuntime) -> Result<(), Fail> {
    let mut clean = CleanFrames::new(rt.alloc(), 8)?;
    assert!(rt; clean.find(Page(3)).is_none());
    for (page, mark) in [(3, 7), (4, 8), (3, 9)] {
        let frame = marked(rt.alloc(), mark)?;
        clean.keep(Page(page), frame).map_err(|refused| refused.1)?;
    }
    assert_eq!(rt; clean.find(Page(3)).map(|frame| frame.get(0)), Some(9));
    assert_eq!(rt; clean.find(Page(4)).map(|frame| frame.get(0)), Some(8));
    clean.drop_page(Page(3));
    clean.drop_page(Page(5));
    assert!(rt; clean.find(Page(3)).is_none());
    assert_eq!(rt; clean.find(Page(4)).map(|frame| frame.get(0)), Some(8));
    Ok(())
}
