ghost use Rattle.std.specs.Prelude.{◌≡◌, ◌+◌, ◌<◌, ◌≤◌, true, length, IfOk};
ghost use Rattle.std.specs.Option.{option_map_or};
ghost use Rattle.casper_audit.specs.Lines.{line_parsed, IsInRange};
ghost use Rattle.casper_audit.specs.Text.{TrailText, no_text, is_before as stands_before};
ghost use Rattle.casper_audit.specs.Auditor.{HasTaken, TakesParsed};

use crate::ledger::Ledger;
use crate::parse::{BaseWord, Parsed, parse_line};
use crate::{AuditFault, AuditRule, Verdict};
use casper_trail::{Item, Mark};
use casper_words::Memory;
use std::alloc::Global;

/// What is known after the lines of a trail's text of which none is bad.
#[derive(Drop)]
pub(crate) struct Auditor {
    ledger: Ledger,
    /// The last word before the trail.
    last: Option<BaseWord>,
    items: u64,
    entries: u32,
}

impl Auditor {
    /// Before any line.
    pub(crate) fn new(alloc: Global) -> Result<Auditor, Memory>
        ensures { IfOk result (λ auditor. HasTaken no_text auditor) }
    {
        let ledger = Ledger::new(alloc)?;
        Ok(Auditor {
            ledger,
            last: None,
            items: 0,
            entries: 0,
        })
    }

    /// How many items are entries.
    pub(crate) fn entries(&self) -> u32
        ensures { result ≡ self.now.entries }
    {
        self.entries
    }

    /// Takes what a line says. Some verdict where its item is bad.
    pub(crate) fn take_line(
        &mut self,
        alloc: Global,
        number: u32,
        line: &[u8],
    ) -> Result<Option<Verdict>, AuditFault>
        requires short { length line.now ≤ 1024 }
        requires items { self.old.items < 1048576 }
        requires entries { self.old.entries < 1048576 }
        ensures takes { (text : TrailText) → HasTaken text self.old
            → TakesParsed number (line_parsed line.now) text self.new result }
        ensures items { self.new.items ≤ self.old.items + 1 }
        ensures entries { self.new.entries ≤ self.old.entries + 1 }
    {
        let _mark: Option<Mark> = None;
        match parse_line(alloc, line)? {
            Parsed::Skip => Ok(None),
            Parsed::Base(word) => self.take_base(number, &word),
            Parsed::Item(item) => self.take_item(number, item),
            Parsed::Bad => Err(AuditFault::BadLine(number)),
        }
    }

    /// Takes a word before the trail: before all items, and rising.
    fn take_base(&mut self, number: u32, word: &BaseWord) -> Result<Option<Verdict>, AuditFault>
        requires { IsInRange (Parsed.Base word.now) }
        ensures takes { (text : TrailText) → HasTaken text self.old
            → TakesParsed number (Parsed.Base word.now) text self.new result }
        ensures items { self.new.items ≡ self.old.items }
        ensures entries { self.new.entries ≡ self.old.entries }
    {
        if self.items > 0 || !self.rises(*word) {
            return Err(AuditFault::BadLine(number));
        }
        self.ledger.set_base(*word)?;
        self.last = Some(*word);
        Ok(None)
    }

    /// Whether a word stands after the last one before the trail.
    fn rises(&self, word: BaseWord) -> bool
        ensures { result ≡ option_map_or (λ last. stands_before last word) self.now.last true }
    {
        match self.last {
            None => true,
            Some(last) => is_before(last, word),
        }
    }

    /// Takes an item, where it is not bad.
    fn take_item(&mut self, number: u32, item: Item) -> Result<Option<Verdict>, AuditFault>
        requires range { IsInRange (Parsed.Item item) }
        requires items { self.old.items < 1048576 }
        requires entries { self.old.entries < 1048576 }
        ensures takes { (text : TrailText) → HasTaken text self.old
            → TakesParsed number (Parsed.Item item) text self.new result }
        ensures items { self.new.items ≤ self.old.items + 1 }
        ensures entries { self.new.entries ≤ self.old.entries + 1 }
    {
        let _mark: Option<Mark> = None;
        if let Some(rule) = self.ledger.rule_broken(&item) {
            return Ok(Some(Verdict::FirstBad {
                at: self.items,
                rule,
            }));
        }
        self.ledger.record(&item)?;
        self.items += 1;
        if let Item::Entry(_) = item {
            self.entries += 1;
        }
        Ok(None)
    }
}

/// Whether a word stands before another: on a lower page, or earlier on the same page.
fn is_before(one: BaseWord, other: BaseWord) -> bool
    ensures { result ≡ stands_before one other }
{
    one.page.0 < other.page.0 || (one.page.0 == other.page.0 && one.word < other.word)
}
