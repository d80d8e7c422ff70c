ghost use Rattle.std.specs.Prelude.{◌≡◌};

use crate::Cause;
use casper_report::Summary;
use casper_stores::Checked;

/// How a call of `run` ended.
#[derive(Clone, Copy, Debug, PartialEq, Eq)]
pub enum End {
    /// Every line of the schedule was answered, which came to this.
    Done(Summary),
    /// The trail whose text was read is legal with exact marks, and has so many entries.
    Legal(u32),
    /// A store of so many pages and frames was made.
    Formatted { pages: u32, frames: u32 },
    /// A store was opened and closed, and this was found.
    Checked(Checked),
    /// It ended before, for this cause.
    Stopped(Cause),
}

impl End {
    ghost use Rattle.casper_app.specs.Status.{status_of_end};

    /// The status with which the program ends.
    pub fn status(&self) -> u8
        ensures { result ≡ status_of_end self.now }
    {
        match self {
            End::Done(_) | End::Legal(_) | End::Formatted { .. } | End::Checked(_) => 0,
            End::Stopped(cause) => cause.status(),
        }
    }
}
