ghost use Rattle.std.specs.Prelude.{◌≡◌, ◌<◌, ◌≤◌, ℕ, List, Result, All, OnOk};
ghost use Rattle.casper_words.specs.declared.page.Want.{Want};
ghost use Rattle.casper_words.specs.declared.call.Call.{Call};
ghost use Rattle.casper_words.specs.Wants.{AreWants};
ghost use Rattle.casper_shell.specs.Holding.{Holds};
ghost use Rattle.casper_shell.specs.declared.refusal.HoldRefusal.{HoldRefusal};

use crate::HoldRefusal;
use casper_space::Words;
use casper_words::Want;

/// The greatest number of calls of a line.
pub const CALLS_OF_LINE: u32 = 600;

/// The words of a client's pages, with a call that gets hold of pages.
pub trait Session: Words {
    // The number of pages of the store.
    ghost pages: { Self → ℕ };

    // What a hold does: the value before, the wants and the number of calls, the result, the value after.
    ghost turn: { Self → List Want → ℕ → Result (Unit {0}) HoldRefusal → Self → Type 0 };

    /// Gets hold of pages, and of room for a number of calls. It makes no call on words.
    fn hold(&mut self, wants: &[Want], calls: u32) -> Result<(), HoldRefusal>
        requires wants { AreWants wants.now }
        requires within { All (λ want. want.page < pages self.old) wants.now }
        requires some { 1 ≤ calls }
        requires few { calls ≤ 4096 }
        ensures held { OnOk result (Holds (Self.seen self.new).right wants.now) }
        ensures room { OnOk result (calls ≤ (Self.seen self.new).room) }
        ensures made { (Self.seen self.new).calls ≡ (Self.seen self.old).calls }
        ensures pages { pages self.new ≡ pages self.old }
        ensures turn { turn self.old wants.now calls result self.new };

    // No call on words changes the number of pages.
    ghost pages_stay: { (before : Self) (call : Call) (after : Self) → Self.step before call after → pages after ≡ pages before };
}
