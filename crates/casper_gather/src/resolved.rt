ghost use Rattle.std.specs.Prelude.{◌≡◌};
ghost use Rattle.casper_model.specs.Stabilise.{reply_of_kept as machine_reply_of};

use crate::Stab;
use casper_model::{Kept, StabReply};
use casper_words::{Crew, Who};

/// What the outcome of a write-out comes to.
#[derive(Clone, Copy, Debug, PartialEq, Eq)]
pub enum Resolved {
    /// The association is stable. These clients are told so.
    Commit(Crew),
    /// The write-out failed, and the association is no longer frozen. These clients are told so.
    Fail(Crew),
    /// The write-out failed, and the loss of this client, which was noted, is carried out.
    Undo(Who),
    /// The stabilisation goes on, in doubt. Nobody is told.
    Doubt(Stab),
}

/// What a client is answered for whom an outcome was kept.
pub fn reply_of_kept(outcome: Kept) -> StabReply
    ensures { result ≡ machine_reply_of outcome }
{
    match outcome {
        Kept::Committed(mark) => StabReply::Committed(mark),
        Kept::Failed(cause) => StabReply::Failed(cause),
    }
}
