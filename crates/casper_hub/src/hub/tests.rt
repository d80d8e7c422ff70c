use super::*;
use casper_cache::Cache;
use casper_model::StabReply;
use std::test::Fail;

#[test]
fn joins(rt: HostRuntime) -> Result<(), Fail> {
    let alloc = rt.alloc();
    let mut hub = Hub::new(alloc, 4, 5000)?;
    let first = Who::new(1).ok_or(Memory)?;
    let second = Who::new(2).ok_or(Memory)?;
    let third = Who::new(3).ok_or(Memory)?;
    assert!(rt; hub.join(first).is_ok());
    assert_eq!(rt; hub.join(first), Err(JoinRefusal::Busy));
    assert!(rt; hub.join(second).is_ok());
    assert_eq!(rt;
        hub.join(third),
        Err(JoinRefusal::TrailFull(0)),
        "all is promised"
    );
    assert_eq!(rt; hub.cap(first), 4100);
    assert_eq!(rt; hub.cap(second), 900);
    assert!(rt; !hub.is_live(third));
    assert_eq!(rt; hub.trail().len(), 0);
    Ok(())
}

#[test]
fn supplies(rt: HostRuntime) -> Result<(), Fail> {
    let alloc = rt.alloc();
    let mut hub = Hub::new(alloc, 4, 10)?;
    assert_eq!(rt; hub.supply(Page(3), 0, Frame::zero(alloc)?), Ok(true));
    assert_eq!(rt;
        hub.supply(Page(3), 1, Frame::zero(alloc)?),
        Ok(false),
        "read before a commit"
    );
    Ok(())
}

#[test]
fn begins_a_stabilisation(rt: HostRuntime) -> Result<(), Fail> {
    let alloc = rt.alloc();
    let mut hub = Hub::new(alloc, 4, 5000)?;
    let first = Who::new(1).ok_or(Memory)?;
    let mut cache = Cache::new(alloc, first, 8)?;
    assert!(rt; hub.join(first).is_ok());
    cache.allow(hub.cap(first));
    assert_eq!(rt; hub.stabilise(first, &mut cache), Ok(StabReply::Sealed(0)));
    Ok(())
}

#[test]
fn a_job_of_nothing_modified_is_empty(rt: HostRuntime) -> Result<(), Fail> {
    let alloc = rt.alloc();
    let mut hub = Hub::new(alloc, 4, 5000)?;
    let first = Who::new(1).ok_or(Memory)?;
    let mut cache = Cache::new(alloc, first, 8)?;
    assert!(rt; hub.join(first).is_ok());
    assert!(rt; hub.job(alloc, first)?.is_none());
    cache.allow(hub.cap(first));
    assert_eq!(rt; hub.stabilise(first, &mut cache), Ok(StabReply::Sealed(0)));
    assert_eq!(rt; hub.first_sealed(), Some(first));
    assert_eq!(rt; hub.doubtful(), None);
    let job = hub.job(alloc, first)?.ok_or(Memory)?;
    assert_eq!(rt; job.lead(), first);
    assert!(rt; job.changes().is_empty());
    Ok(())
}
