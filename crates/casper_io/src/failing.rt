ghost use Rattle.std.specs.Prelude.{◌≡◌, ◌≤◌, IfOk};
ghost use Rattle.casper_io.specs.Memory.{fails_next, after_call, after_fault, Failing};

use crate::IoFault;
use casper_words::Memory;
use std::alloc::Global;
use std::marker::Model;

/// The numbers of the calls that are to fail, counted from 1, and the counts of calls and faults up to now.
#[derive(Drop)]
pub(crate) struct FailingCalls {
    fails: Vec<u64>,
    calls: u64,
    faults: u64,
}

impl Model for FailingCalls {
    ghost use Rattle.casper_io.specs.Memory.{Failing};

    ghost Value = { Failing };

    ghost view = { λ own. record { fails = own.fails.items; calls = own.calls; faults = own.faults } };
}

impl FailingCalls {
    pub(crate) fn new(alloc: Global, fails: &[u64]) -> Result<FailingCalls, Memory>
        ensures { IfOk result (λ own. own ≡ record { fails = fails.now; calls = 0; faults = 0 }) }
    {
        let fails = Vec::from_slice(alloc, fails)?;
        Ok(FailingCalls {
            fails,
            calls: 0,
            faults: 0,
        })
    }

    /// Whether the next call is to fail.
    pub(crate) fn fails_next(&self) -> bool
        ensures { result ≡ fails_next self.now }
    {
        self.fails.contains(&self.calls.saturating_add(1))
    }

    /// Counts a call that did what it should.
    pub(crate) fn count_call(&mut self)
        ensures { self.new ≡ after_call self.old }
    {
        self.calls = self.calls.saturating_add(1);
    }

    /// Counts a call that failed, and gives its answer.
    pub(crate) fn count_fault(&mut self) -> IoFault
        ensures after { self.new ≡ after_fault self.old }
        ensures never_falls { self.old.faults ≤ self.new.faults }
    {
        self.calls = self.calls.saturating_add(1);
        self.faults = self.faults.saturating_add(1);
        IoFault::Failed
    }
}
