ghost use Rattle.std.specs.Prelude.{◌≡◌, ◌≢◌, ◌⊎◌, ◌≤◌, not, true, false, is_some, IfOk, IfSome};
ghost use Rattle.casper_words.specs.Count.{FaultCountRose};
ghost use Rattle.casper_app.specs.Texts.{end_line, cause_line, rule_word, tells_number};
ghost use Rattle.casper_app.specs.Ending.{EndsWith, WritesLast};

use crate::{Cause, End};
use casper_audit::AuditRule;
use casper_io::{Sink, put_all};
use casper_report::{constant_refusal, refusal_text, summary_text};
use casper_stores::{checked_text, formatted_text};
use casper_words::Memory;
use std::alloc::Global;

/// Writes the line that tells how a call ended, and answers how it ended after all. A line that tells no number takes no memory.
pub(crate) fn write_ending<K: Sink>(alloc: Global, sink: &mut K, meant: End) -> End
    requires { (meant ≡ End.Stopped Cause.Write) ⊎ (K.is_broken sink.old ≡ false) }
    ensures ends { EndsWith meant result (K.taken sink.old) (K.taken sink.new) }
    ensures fault { result ≡ End.Stopped Cause.Write
        → (meant ≡ End.Stopped Cause.Write)
        ⊎ FaultCountRose (K.faults sink.old) (K.faults sink.new) }
    ensures sink_stands { (result ≡ End.Stopped Cause.Write)
        ⊎ (K.faults sink.new ≡ K.faults sink.old) }
    ensures end { (result ≡ meant) ⊎ (result ≡ End.Stopped Cause.Write)
        ⊎ (result ≡ End.Stopped Cause.Memory) }
    ensures constant { tells_number meant ≡ false
        → (result ≡ meant) ⊎ (result ≡ End.Stopped Cause.Write) }
    ensures untouched { meant ≡ End.Stopped Cause.Write → K.faults sink.new ≡ K.faults sink.old }
{
    if let End::Stopped(Cause::Write) = meant {
        return meant;
    }
    if let Some(line) = constant_line(&meant) {
        return write_last(sink, line, meant);
    }
    match end_text(alloc, &meant) {
        Ok(text) => write_last(sink, text.as_slice(), meant),
        Err(Memory) => write_last(sink, b"no memory\n", End::Stopped(Cause::Memory)),
    }
}

/// The line that tells how a call ended, where it tells no number.
fn constant_line(said: &End) -> Option<&'static [u8]>
    ensures line { IfSome result (λ line. line.now ≡ end_line said.now) }
    ensures exactly { is_some result ≡ not (tells_number said.now) }
{
    let line: &[u8] = match said {
        End::Stopped(Cause::Usage) => b"usage\n",
        End::Stopped(Cause::Read) => b"read fault\n",
        End::Stopped(Cause::Write) => b"",
        End::Stopped(Cause::Disk) => b"disk fault\n",
        End::Stopped(Cause::Refused(refusal)) => return constant_refusal(refusal),
        End::Stopped(Cause::Memory) => b"no memory\n",
        End::Done(_) | End::Legal(_) => return None,
        End::Formatted { .. } | End::Checked(_) => return None,
        End::Stopped(Cause::BadLine(_) | Cause::Illegal { .. } | Cause::Unbuilt(_)) => return None,
    };
    Some(line)
}

/// The line that tells how a call ended, where it tells a number.
fn end_text(alloc: Global, said: &End) -> Result<Vec<u8>, Memory>
    requires { tells_number said.now ≡ true }
    ensures { IfOk result (λ text. text.items ≡ end_line said.now) }
{
    match said {
        End::Done(summary) => summary_text(alloc, summary),
        End::Legal(entries) => Ok(format!(in alloc; "legal {entries}\n")?.into_bytes()),
        End::Formatted { pages, frames } => formatted_text(alloc, *pages, *frames),
        End::Checked(found) => checked_text(alloc, found),
        End::Stopped(cause) => cause_text(alloc, cause),
    }
}

/// The line for a cause that tells a number, which comes last.
fn cause_text(alloc: Global, cause: &Cause) -> Result<Vec<u8>, Memory>
    requires { tells_number (End.Stopped cause.now) ≡ true }
    ensures { IfOk result (λ text. text.items ≡ cause_line cause.now) }
{
    let text = match cause {
        Cause::Usage | Cause::Read | Cause::Write => unreachable!(),
        Cause::Disk | Cause::Memory => unreachable!(),
        Cause::Refused(refusal) => return refusal_text(alloc, refusal),
        Cause::BadLine(line) => format!(in alloc; "bad line {line}\n")?,
        Cause::Illegal { at, rule } => format!(in alloc; "bad {at} {}\n", rule_text(*rule))?,
        Cause::Unbuilt(line) => format!(in alloc; "unbuilt {line}\n")?,
    };
    Ok(text.into_bytes())
}

/// The word for a rule of a trail.
fn rule_text(rule: AuditRule) -> &'static str
    ensures { result.now ≡ rule_word rule }
{
    match rule {
        AuditRule::Read => "read",
        AuditRule::Commit => "commit",
        AuditRule::Rollback => "rollback",
    }
}

/// Writes the last bytes of a call, for an end that stands unless the sink fails.
fn write_last<K: Sink>(sink: &mut K, bytes: &[u8], said: End) -> End
    requires { K.is_broken sink.old ≡ false }
    ensures written { WritesLast said result bytes.now (K.taken sink.old) (K.taken sink.new) }
    ensures fault { result ≡ End.Stopped Cause.Write
        → (said ≡ End.Stopped Cause.Write)
        ⊎ FaultCountRose (K.faults sink.old) (K.faults sink.new) }
    ensures said { (result ≡ said) ⊎ (result ≡ End.Stopped Cause.Write) }
    ensures sink_stands { (result ≡ End.Stopped Cause.Write)
        ⊎ (K.faults sink.new ≡ K.faults sink.old) }
{
    match put_all(sink, bytes) {
        Ok(()) => said,
        Err(_) => End::Stopped(Cause::Write),
    }
}
