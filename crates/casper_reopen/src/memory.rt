use crate::Reopen;
use casper_disk::MemVault;
use casper_root::OpenFault;
use std::alloc::Global;

impl Reopen for MemVault {
    // What is in memory stays, so there is nothing to read again.
    fn reopen(&mut self, _alloc: Global) -> Result<(), OpenFault> {
        Ok(())
    }
}
