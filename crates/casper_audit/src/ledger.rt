ghost use Rattle.std.specs.Prelude.{◌≡◌, ℕ, ◌<◌, List, [], ◌∷◌, ◌++◌, ◌==◌, ◌&&◌, OnOk, IfOk, MatchOption, MatchBool};
ghost use Rattle.std.specs.List.{list_any};
ghost use Rattle.casper_words.specs.Crew.{has_member};
ghost use Rattle.casper_trail.specs.declared.item.Item.{Item as TrailItem};
ghost use Rattle.casper_trail.specs.Parts.{live_entries};
ghost use Rattle.casper_trail.specs.Fate.{members_of as members_in};
ghost use Rattle.casper_trail.specs.Legal.{IsRightAfter};
ghost use Rattle.casper_trail.specs.Marks.{IsExactNext, IsExactMark};
ghost use Rattle.casper_audit.specs.declared.parse.BaseWord.{BaseWord as TextWord};
ghost use Rattle.casper_audit.specs.Lines.{IsInRange};
ghost use Rattle.casper_audit.specs.Text.{base_of};
ghost use Rattle.casper_audit.specs.Verdicts.{IsBad, IsGood};
ghost use Rattle.casper_audit.specs.Words.{same_place, live_in};
ghost use Rattle.casper_audit.specs.Opened.{places_in, is_among};
ghost use Rattle.casper_audit.specs.Keeps.{IsLedger, Links, SetsBoth, Writes};
ghost use Rattle.casper_audit.specs.Settled.{commits as commits_in, Settles, Empties, is_theirs, has_theirs, on_page};

use crate::AuditRule;
use crate::groups::{Groups, client};
use crate::opened::Opened;
use crate::parse::{BaseWord, Parsed};
use crate::words::{Place, Values, Words};
use casper_trail::{Entry, Item, Mark};
use casper_words::{Crew, Memory, Op, Who};
use std::alloc::Global;
use std::collections::HashMap;

/// What must be known of the items of a trail to judge the next one.
#[derive(Drop)]
pub(crate) struct Ledger {
    words: Words,
    /// For each page with an open write, a client that wrote it.
    writers: HashMap<u32, Who>,
    opened: Opened,
    groups: Groups,
    alloc: Global,
}

impl Ledger {
    /// Of no items, over zeros.
    pub(crate) fn new(alloc: Global) -> Result<Ledger, Memory>
        ensures { IfOk result (λ ledger. IsLedger (base_of []) [] ledger) }
    {
        let opened = Opened::new(alloc)?;
        Ok(Ledger {
            words: Words::new(alloc),
            writers: HashMap::new(alloc),
            opened,
            groups: Groups::new(),
            alloc,
        })
    }

    /// Gives a word its value before the trail.
    pub(crate) fn set_base(&mut self, base: BaseWord) -> Result<(), Memory>
        requires { IsInRange (Parsed.Base base) }
        ensures { OnOk result ((words : List TextWord) → IsLedger (base_of words) [] self.old
            → IsLedger (base_of (words ++ base ∷ [])) [] self.new) }
    {
        let BaseWord { page, word, value } = base;
        self.set_both(Place { page: page.0, word }, value)
    }

    /// Gives a word one value.
    fn set_both(&mut self, place: Place, value: u64) -> Result<(), Memory>
        ensures { OnOk result (SetsBoth place value self.old self.new) }
    {
        let values = Values {
            live: value,
            stable: value,
        };
        self.words.set(place, values)
    }

    /// The rule that an item breaks after the items.
    pub(crate) fn rule_broken(&self, item: &Item) -> Option<AuditRule>
        requires { IsInRange (Parsed.Item item.now) }
        ensures { (base : List (List ℕ)) (items : List TrailItem) → IsLedger base items self.now
            → MatchOption result (IsGood base items item.now)
            (λ rule. IsBad rule base items item.now) }
    {
        match item {
            Item::Entry(entry) => {
                if self.is_wrong(*entry) {
                    Some(AuditRule::Read)
                } else {
                    None
                }
            }
            Item::Mark(mark) => self.mark_broken(mark),
        }
    }

    /// Whether an entry reads another value than its word has.
    fn is_wrong(&self, entry: Entry) -> bool
        requires { (entry.page < 262144) × (entry.word < 512) }
        ensures { (base : List (List ℕ)) (items : List TrailItem) → IsLedger base items self.now
            → MatchBool result (¬ IsRightAfter base (live_entries items) entry)
            (IsRightAfter base (live_entries items) entry) }
    {
        let Entry {
            op,
            page,
            word,
            value,
            ..
        } = entry;
        match op {
            Op::Read => self.live_value(page.0, word) != value,
            Op::Write | Op::Touch => false,
        }
    }

    /// The value of a word over the live entries.
    fn live_value(&self, page: u32, word: u32) -> u64
        ensures { result ≡ live_in self.now.words page word }
    {
        self.words.at(Place { page, word }).live
    }

    /// The rule that a mark breaks after the items.
    fn mark_broken(&self, mark: &Mark) -> Option<AuditRule>
        ensures { (base : List (List ℕ)) (items : List TrailItem) → IsLedger base items self.now
            → MatchOption result (IsExactMark items mark.now)
            (λ rule. IsBad rule base items (Item.Mark mark.now)) }
    {
        match mark {
            Mark::Commit { lead, members } => {
                if *members == self.groups.of(*lead) {
                    None
                } else {
                    Some(AuditRule::Commit)
                }
            }
            Mark::Rollback { lost, members } => {
                if *members == self.groups.of(*lost) {
                    None
                } else {
                    Some(AuditRule::Rollback)
                }
            }
        }
    }

    /// Adds an item that breaks no rule.
    pub(crate) fn record(&mut self, item: &Item) -> Result<(), Memory>
        requires { IsInRange (Parsed.Item item.now) }
        ensures { OnOk result ((base : List (List ℕ)) (items : List TrailItem)
            → IsExactNext items item.now → IsLedger base items self.old
            → IsLedger base (items ++ item.now ∷ []) self.new) }
    {
        match item {
            Item::Entry(entry) => self.add(*entry),
            Item::Mark(mark) => self.settle(mark),
        }
    }

    /// Adds an entry: its client is linked with one that has an open write on its page.
    fn add(&mut self, entry: Entry) -> Result<(), Memory>
        requires { IsInRange (Parsed.Item (Item.Entry entry)) }
        ensures { OnOk result ((base : List (List ℕ)) (items : List TrailItem)
            → IsLedger base items self.old
            → IsLedger base (items ++ Item.Entry entry ∷ []) self.new) }
    {
        let Entry {
            who,
            op,
            page,
            word,
            value,
        } = entry;
        self.link(who, page.0);
        match op {
            Op::Write => {
                let place = Place { page: page.0, word };
                self.add_write(who, place, value)
            }
            Op::Read | Op::Touch => Ok(()),
        }
    }

    /// Makes a client's association one with that of a client that has an open write on a page, if there is one.
    fn link(&mut self, who: Who, page: u32)
        ensures { Links who page self.old self.new }
    {
        if let Some(writer) = self.writers.get(&page).copied() {
            self.groups.unite(who, writer);
        }
    }

    /// Notes an open write.
    fn add_write(&mut self, who: Who, place: Place, value: u64) -> Result<(), Memory>
        ensures { OnOk result (Writes who place value self.old self.new) }
    {
        let values = Values {
            live: value,
            stable: self.words.at(place).stable,
        };
        self.words.set(place, values)?;
        self.opened.push(who, place)?;
        self.writers.insert(place.page, who)?;
        Ok(())
    }

    /// Ends the open writes of the members of a mark, and makes each of them alone.
    fn settle(&mut self, mark: &Mark) -> Result<(), Memory>
        ensures { OnOk result ((base : List (List ℕ)) (items : List TrailItem)
            → IsExactMark items mark.now → IsLedger base items self.old
            → IsLedger base (items ++ Item.Mark mark.now ∷ []) self.new) }
    {
        let members = members_of(mark);
        self.settle_members(members, commits(mark))?;
        self.groups.part(members);
        Ok(())
    }

    /// Ends the open writes of clients.
    fn settle_members(&mut self, members: Crew, committed: bool) -> Result<(), Memory>
        ensures settles { OnOk result
            (Settles committed (is_theirs self.old members 32)
            (has_theirs self.old members 32) self.old self.new) }
        ensures empties { OnOk result (Empties (λ who. has_member who members) self.old self.new) }
    {
        for below in 0..Who::MOST {
            self.settle_member(members, client(below + 1), committed)?;
        }
        Ok(())
    }

    /// Ends the open writes of a client, where it is a member.
    fn settle_member(&mut self, members: Crew, who: Who, committed: bool) -> Result<(), Memory>
        ensures settles { OnOk result
            (Settles committed
            (λ place. has_member who members && is_among (places_in self.old.opened who) place)
            (λ page. has_member who members && list_any (on_page page)
            (places_in self.old.opened who)) self.old self.new) }
        ensures empties { OnOk result
            (Empties (λ client. has_member who members && (client == who)) self.old self.new) }
    {
        if members.has(who) {
            self.settle_client(who, committed)
        } else {
            Ok(())
        }
    }

    /// Ends the open writes of a client.
    fn settle_client(&mut self, who: Who, committed: bool) -> Result<(), Memory>
        ensures settles { OnOk result (Settles committed (is_among (places_in self.old.opened who))
            (λ page. list_any (on_page page) (places_in self.old.opened who)) self.old self.new) }
        ensures empties { OnOk result (Empties (λ client. client == who) self.old self.new) }
    {
        let places = self.opened.take(self.alloc, who);
        self.settle_places(&places, committed)
    }

    /// Ends the open writes of words.
    fn settle_places(&mut self, places: &[Place], committed: bool) -> Result<(), Memory>
        ensures settles { OnOk result
            (Settles committed (is_among places.now)
            (λ page. list_any (on_page page) places.now) self.old self.new) }
        ensures opened { OnOk result (self.new.opened ≡ self.old.opened) }
    {
        for place in places {
            self.settle_place(*place, committed)?;
        }
        Ok(())
    }

    /// Ends the open writes of a word: it keeps the value that they gave it, or has the one from before them again.
    fn settle_place(&mut self, place: Place, committed: bool) -> Result<(), Memory>
        ensures settles { OnOk result
            (Settles committed (same_place place) (λ page. on_page page place) self.old self.new) }
        ensures opened { OnOk result (self.new.opened ≡ self.old.opened) }
    {
        let values = self.words.at(place);
        let value = if committed {
            values.live
        } else {
            values.stable
        };
        let settled = Values {
            live: value,
            stable: value,
        };
        self.words.set(place, settled)?;
        let _ = self.writers.remove(&place.page);
        Ok(())
    }
}

/// The clients whose open entries a mark decides.
fn members_of(mark: &Mark) -> Crew
    ensures { result ≡ members_in mark.now }
{
    match mark {
        Mark::Commit { members, .. } | Mark::Rollback { members, .. } => *members,
    }
}

/// Whether a mark keeps the open entries of its members.
fn commits(mark: &Mark) -> bool
    ensures { result ≡ commits_in mark.now }
{
    match mark {
        Mark::Commit { .. } => true,
        Mark::Rollback { .. } => false,
    }
}
