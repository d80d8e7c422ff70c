ghost use Rattle.std.specs.Prelude.{◌≡◌, ℕ, Bool, false, List, Option, ◌<◌, ◌≤◌, length, take, is_err, IfOk, OnOk, OnErr};
ghost use Rattle.std.specs.Io.KnownBytes.{append_known};
ghost use Rattle.casper_words.specs.Count.{FaultCountRose};
ghost use Rattle.casper_io.specs.Told.{TakesFront};

use crate::IoFault;

/// Where bytes go to: a file, a terminal, another program, or memory.
///
/// A sink may tell which bytes it has taken, or tell nothing; no call changes whether it tells. It counts
/// the writes that failed, up to `u64::MAX`. A write that takes no byte of a piece that has some has failed. A sink that failed is
/// broken, and nothing more may be asked of it.
pub trait Sink {
    // The bytes taken, where told.
    ghost taken: { Self → Option (List ℕ) };

    // How many writes failed.
    ghost faults: { Self → ℕ };

    // Whether a write failed.
    ghost is_broken: { Self → Bool };

    /// Takes bytes from the front of the piece, and answers how many: at least one, if there is one. Where the write
    /// fails, the bytes taken stay. The count of failed writes rises then alone.
    fn write(&mut self, from: &[u8]) -> Result<usize, IoFault>
        requires whole { is_broken self.old ≡ false }
        ensures broken { is_broken self.new ≡ is_err result }
        ensures count { IfOk result (λ count. count ≤ length from.now) }
        ensures moves { IfOk result (λ count. 0 < length from.now → 0 < count) }
        ensures moved { IfOk result (λ count. taken self.new
            ≡ append_known (taken self.old) (take count from.now)) }
        ensures kept { OnErr result (taken self.new ≡ taken self.old) }
        ensures counted { OnErr result (FaultCountRose (faults self.old) (faults self.new)) }
        ensures uncounted { OnOk result (faults self.new ≡ faults self.old) }
        ensures never_falls { faults self.old ≤ faults self.new };
}

/// Writes all the bytes, in as many writes as the sink asks for. A fault leaves the bytes from some place on unwritten.
/// It takes no memory.
pub fn put_all<K: Sink>(sink: &mut K, bytes: &[u8]) -> Result<(), IoFault>
    requires { K.is_broken sink.old ≡ false }
    ensures broken { K.is_broken sink.new ≡ is_err result }
    ensures all { OnOk result (K.taken sink.new ≡ append_known (K.taken sink.old) bytes.now) }
    ensures part { OnErr result (TakesFront (K.taken sink.old) (K.taken sink.new) bytes.now) }
    ensures counted { OnErr result (FaultCountRose (K.faults sink.old) (K.faults sink.new)) }
    ensures uncounted { OnOk result (K.faults sink.new ≡ K.faults sink.old) }
    ensures never_falls { K.faults sink.old ≤ K.faults sink.new }
{
    let mut done = 0;
    while done < bytes.len() {
        done += sink.write(&bytes[done..])?;
    }
    Ok(())
}
