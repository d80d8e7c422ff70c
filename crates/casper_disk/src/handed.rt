ghost use Rattle.std.specs.Prelude.{◌≡◌};
ghost use Rattle.casper_disk.specs.Handed.{faults_since};

/// How many faults a disk had since it was handed out with so many. Where its count stands at the end of its type, more may have
/// failed than it says: as many as can be.
pub(crate) fn faults_since(handed: u64, count: u64) -> u64
    ensures { result ≡ faults_since handed count }
{
    if count == u64::MAX {
        return u64::MAX;
    }
    count.saturating_sub(handed)
}
