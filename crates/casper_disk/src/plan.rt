ghost use Rattle.std.specs.Prelude.{◌≡◌, ◌≤◌, is_err, OnOk, OnErr};
ghost use Rattle.casper_words.specs.Count.{FaultCountRose};
ghost use Rattle.casper_disk.specs.Plan.{count_of, counted, with_fault, fails_next, armed_with, unplanned};

use crate::{DiskFault, Fail, Kind};
use casper_words::Memory;
use std::alloc::Global;
use std::marker::Model;

/// The calls that are to fail, how many calls there were of each kind, and how many calls failed.
#[derive(Drop)]
pub(crate) struct Plan {
    fails: Vec<Fail>,
    reads: u64,
    writes: u64,
    syncs: u64,
    faults: u64,
}

impl Model for Plan {
    ghost use Rattle.casper_disk.specs.Plan.{Planned};

    ghost Value = { Planned };

    ghost view = { λ own. record {
      fails = own.fails.items;
      reads = own.reads;
      writes = own.writes;
      syncs = own.syncs;
      faults = own.faults;
    } };
}

impl Plan {
    /// No call was made, and none is to fail.
    pub(crate) fn new(alloc: Global) -> Plan
        ensures { result ≡ unplanned }
    {
        Plan {
            fails: Vec::new(alloc),
            reads: 0,
            writes: 0,
            syncs: 0,
            faults: 0,
        }
    }

    /// Counts the calls anew, of which these are to fail. After Memory nothing has changed.
    pub(crate) fn arm(&mut self, alloc: Global, fails: &[Fail]) -> Result<(), Memory>
        ensures ok { OnOk result (self.new ≡ armed_with fails.now self.old) }
        ensures err { OnErr result (self.new ≡ self.old) }
    {
        self.fails = Vec::from_slice(alloc, fails)?;
        self.reads = 0;
        self.writes = 0;
        self.syncs = 0;
        Ok(())
    }

    /// How many calls of the kind were counted.
    pub(crate) fn count(&self, kind: Kind) -> u64
        ensures { result ≡ count_of self.now kind }
    {
        match kind {
            Kind::Read => self.reads,
            Kind::Write => self.writes,
            Kind::Sync => self.syncs,
        }
    }

    /// How many calls failed.
    pub(crate) fn faults(&self) -> u64
        ensures { result ≡ self.now.faults }
    {
        self.faults
    }

    /// Whether the next call of the kind is to fail.
    pub(crate) fn fails_next(&self, kind: Kind) -> bool
        ensures { result ≡ fails_next self.now kind }
    {
        let number = self.count(kind).saturating_add(1);
        self.fails
            .iter()
            .any(|fail| fail.kind == kind && fail.number == number)
    }

    /// Counts a call.
    pub(crate) fn count_call(&mut self, kind: Kind)
        ensures after { self.new ≡ counted kind self.old }
        ensures faults { self.new.faults ≡ self.old.faults }
        ensures same_fails { self.new.fails ≡ self.old.fails }
    {
        match kind {
            Kind::Read => self.reads = self.reads.saturating_add(1),
            Kind::Write => self.writes = self.writes.saturating_add(1),
            Kind::Sync => self.syncs = self.syncs.saturating_add(1),
        }
    }

    /// Counts a fault, and gives its answer.
    pub(crate) fn fault(&mut self) -> DiskFault
        ensures after { self.new ≡ with_fault self.old }
        ensures counted { FaultCountRose self.old.faults self.new.faults }
        ensures never_falls { self.old.faults ≤ self.new.faults }
        ensures same_fails { self.new.fails ≡ self.old.fails }
    {
        self.faults = self.faults.saturating_add(1);
        DiskFault::Failed
    }

    /// The answer of a call, which is counted as a fault where it is to fail.
    pub(crate) fn answer(&mut self, fails: bool) -> Result<(), DiskFault>
        ensures fails { is_err result ≡ fails }
        ensures ok { OnOk result (self.new ≡ self.old) }
        ensures err { OnErr result (self.new ≡ with_fault self.old) }
        ensures counted { OnErr result (FaultCountRose self.old.faults self.new.faults) }
        ensures never_falls { self.old.faults ≤ self.new.faults }
        ensures same_fails { self.new.fails ≡ self.old.fails }
    {
        if fails {
            return Err(self.fault());
        }
        Ok(())
    }
}
