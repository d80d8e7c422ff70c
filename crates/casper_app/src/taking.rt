ghost use Rattle.std.specs.Prelude.{◌≡◌, ◌≢◌, ◌⊎◌, ◌+◌, ◌<◌, ◌≤◌, false, [], length, MatchResult, MatchBool, Err, IfErr, IsTrue};
ghost use Rattle.casper_words.specs.Count.{FaultCountRose};
ghost use Rattle.casper_io.specs.Lines.{TakesLine, TakesEnd};
ghost use Rattle.casper_io.specs.Told.{WhereTold};
ghost use Rattle.casper_app.specs.Carrying.{MayBeAsked};
ghost use Rattle.casper_app.specs.Opening.{IsNoRefusal};
ghost use Rattle.casper_app.specs.Taking.{TakesAsked, TakesInput, NoLine};

use crate::Cause;
use crate::replay::Replay;
use crate::room::Room;
use crate::schedule::{Asked, Parsed, parse_line};
use casper_disk::Vault;
use casper_io::{IoFault, Line, Next, Sink, Source, next_line, put_all};
use casper_reopen::Reopen;
use casper_report::answer_text;
use casper_trail::Mark;

/// Reads the next line into `line`, and tells whether there is one. The line would be of this number.
pub(crate) fn read_line<S: Source>(
    source: &mut S,
    line: &mut Line,
    number: u32,
) -> Result<bool, Cause>
    requires { S.is_broken source.old ≡ false }
    ensures next { MatchResult result
        (λ found. MatchBool found
        (WhereTold (S.left source.old) (S.left source.new) (TakesLine line.new))
        (WhereTold (S.left source.old) (S.left source.new) (TakesEnd [])))
        (λ cause. NoLine cause number (S.left source.old) (S.left source.new)) }
    ensures fault { result ≡ Err Cause.Read
        → FaultCountRose (S.faults source.old) (S.faults source.new) }
    ensures source_stands { (result ≡ Err Cause.Read)
        ⊎ (S.faults source.new ≡ S.faults source.old) }
    ensures source_whole { (result ≡ Err Cause.Read) ⊎ (S.is_broken source.new ≡ false) }
    ensures write { result ≢ Err Cause.Write }
    ensures unrefused { IfErr result IsNoRefusal }
    ensures disk { result ≢ Err Cause.Disk }
    ensures short { length line.new ≤ 1024 }
{
    match next_line(source, line) {
        Ok(Next::Line) => Ok(true),
        Ok(Next::End) => Ok(false),
        Ok(Next::TooLong) => Err(Cause::BadLine(number)),
        Err(IoFault::Failed) => Err(Cause::Read),
    }
}

impl<V: Vault + Reopen> Replay<V> {
    /// Answers the line that was read, if it asks for something, and writes the answer where answers are written.
    pub(crate) fn take_line<K: Sink>(
        &mut self,
        number: u32,
        room: &mut Room,
        sink: &mut K,
    ) -> Result<(), Cause>
        requires limit { self.old.sessions.entries ≤ 4194304 }
        requires whole { K.is_broken sink.old ≡ false }
        ensures takes { TakesInput V.tells V.faults V.moment V.images_since number room.old.line
            self.old self.new (K.taken sink.old) (K.taken sink.new) result }
        ensures read { result ≢ Err Cause.Read }
        ensures unrefused { IsTrue V.tells → IfErr result IsNoRefusal }
        ensures disk { result ≡ Err Cause.Disk → FaultCountRose
            (V.faults self.old.sessions.core.vault) (V.faults self.new.sessions.core.vault) }
        ensures fault { result ≡ Err Cause.Write
            → FaultCountRose (K.faults sink.old) (K.faults sink.new) }
        ensures sink_stands { (result ≡ Err Cause.Write) ⊎ (K.faults sink.new ≡ K.faults sink.old) }
        ensures sink_whole { (result ≡ Err Cause.Write) ⊎ (K.is_broken sink.new ≡ false) }
    {
        let _mark: Option<Mark> = None;
        // What is true of every core holds also where the line asks for nothing.
        let _calls = self.sessions.core.calls();
        match parse_line(room.line.bytes(), &mut room.places) {
            Parsed::Skip => Ok(()),
            Parsed::Asked(asked) => self.take_asked(&asked, &mut room.text, sink),
            Parsed::Unbuilt => Err(Cause::Unbuilt(number)),
            Parsed::Bad => Err(Cause::BadLine(number)),
        }
    }

    /// Answers what was asked for, and writes the answer where answers are written. The room is for its text.
    fn take_asked<K: Sink>(
        &mut self,
        asked: &Asked,
        room: &mut Vec<u8>,
        sink: &mut K,
    ) -> Result<(), Cause>
        requires built { MayBeAsked asked.now }
        requires limit { self.old.sessions.entries ≤ 4194304 }
        requires whole { K.is_broken sink.old ≡ false }
        ensures takes { TakesAsked V.tells V.faults V.moment V.images_since asked.now self.old
            self.new (K.taken sink.old) (K.taken sink.new) result }
        ensures read { result ≢ Err Cause.Read }
        ensures unrefused { IsTrue V.tells → IfErr result IsNoRefusal }
        ensures disk { result ≡ Err Cause.Disk → FaultCountRose
            (V.faults self.old.sessions.core.vault) (V.faults self.new.sessions.core.vault) }
        ensures fault { result ≡ Err Cause.Write
            → FaultCountRose (K.faults sink.old) (K.faults sink.new) }
        ensures sink_stands { (result ≡ Err Cause.Write) ⊎ (K.faults sink.new ≡ K.faults sink.old) }
        ensures sink_whole { (result ≡ Err Cause.Write) ⊎ (K.is_broken sink.new ≡ false) }
    {
        let _mark: Option<Mark> = None;
        let answer = self.answer(asked)?;
        if !self.outlet.writes() {
            return Ok(());
        }
        let text = answer_text(&answer, room)?;
        match put_all(sink, text) {
            Ok(()) => Ok(()),
            Err(IoFault::Failed) => Err(Cause::Write),
        }
    }
}
