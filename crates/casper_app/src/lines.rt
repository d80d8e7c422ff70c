ghost use Rattle.std.specs.Prelude.{◌≡◌, ◌⊎◌, ◌+◌, ◌<◌, ◌≤◌, false, Err, IfErr, IsTrue};
ghost use Rattle.casper_words.specs.Count.{FaultCountRose};
ghost use Rattle.casper_app.specs.Opening.{IsNoRefusal};
ghost use Rattle.casper_app.specs.Reading.{IsReading};

use crate::Cause;
use crate::replay::Replay;
use crate::room::Room;
use crate::taking::read_line;
use casper_disk::Vault;
use casper_io::{MOST_LINES, Sink, Source};
use casper_reopen::Reopen;
use casper_trail::Mark;

/// Reads lines and answers each before it reads the next, up to the end of the source, where the answer is how many lines it had, or
/// to the first that is refused.
pub(crate) fn take_lines<V: Vault + Reopen, S: Source, K: Sink>(
    replay: &mut Replay<V>,
    room: &mut Room,
    source: &mut S,
    sink: &mut K,
) -> Result<u32, Cause>
    requires calls { replay.old.sessions.core.calls ≡ 0 }
    requires limit { replay.old.sessions.entries ≤ 4194304 }
    requires source { S.is_broken source.old ≡ false }
    requires sink { K.is_broken sink.old ≡ false }
    ensures reading { IsReading V.tells V.faults V.moment V.images_since (S.left source.old)
        (S.left source.new) (K.taken sink.old) (K.taken sink.new)
        replay.old replay.new result }
    ensures read_fault { result ≡ Err Cause.Read
        → FaultCountRose (S.faults source.old) (S.faults source.new) }
    ensures write_fault { result ≡ Err Cause.Write
        → FaultCountRose (K.faults sink.old) (K.faults sink.new) }
    ensures unrefused { IsTrue V.tells → IfErr result IsNoRefusal }
    ensures disk { result ≡ Err Cause.Disk → FaultCountRose
        (V.faults replay.old.sessions.core.vault) (V.faults replay.new.sessions.core.vault) }
    ensures source_stands { (result ≡ Err Cause.Read)
        ⊎ (S.faults source.new ≡ S.faults source.old) }
    ensures sink_stands { (result ≡ Err Cause.Write) ⊎ (K.faults sink.new ≡ K.faults sink.old) }
    ensures sink_whole { (result ≡ Err Cause.Write) ⊎ (K.is_broken sink.new ≡ false) }
{
    let _mark: Option<Mark> = None;
    // What is true of every core holds also where there is no line.
    let _calls = replay.sessions.core.calls();
    for lines in 0..MOST_LINES {
        if !read_line(source, &mut room.line, lines + 1)? {
            return Ok(lines);
        }
        replay.take_line(lines + 1, room, sink)?;
    }
    if read_line(source, &mut room.line, MOST_LINES + 1)? {
        return Err(Cause::BadLine(MOST_LINES + 1));
    }
    Ok(MOST_LINES)
}
