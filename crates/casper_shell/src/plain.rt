ghost use Rattle.std.specs.Prelude.{◌≡◌, length};

use crate::{HoldRefusal, Session};
use casper_space::{Answer, Plain};
use casper_words::Want;

/// Every page is held from the start. A hold is refused where there is room for fewer calls.
impl Session for Plain {
    ghost use Rattle.casper_shell.specs.OverPlain.{PlainTurn, plain_pages_stay};

    ghost pages = { λ plain. length plain.pages };

    ghost turn = { PlainTurn };

    ghost pages_stay = { plain_pages_stay };

    fn hold(&mut self, _wants: &[Want], calls: u32) -> Result<(), HoldRefusal> {
        if self.room() < calls {
            let made = u32::try_from(self.calls().len()).unwrap_or(u32::MAX);
            return Err(HoldRefusal::Answer(Answer::TrailFull(made)));
        }
        Ok(())
    }
}
