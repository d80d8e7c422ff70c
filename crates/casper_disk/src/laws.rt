ghost use Rattle.casper_disk.specs.StopLaw.{SettledEndsWithLastSync, RecordsEndWithNow};

/// What a stop leaves of loose blocks with `Pick::Old` is what they were at the last sync that answered Ok before it, or at the
/// start where there was none. The record ends with what is now, and as each call keeps what it has of earlier moments, it has the
/// content and the loose blocks of each moment. It does nothing.
pub fn stop_laws()
    ensures settled { SettledEndsWithLastSync }
    ensures now { RecordsEndWithNow }
{}
