ghost use Rattle.std.specs.Prelude.{◌≡◌, IfOk};
ghost use Rattle.casper_report.specs.Summary.{summary_line};

use casper_words::Memory;
use std::alloc::Global;

/// What a whole run came to.
#[derive(Clone, Copy, Debug, PartialEq, Eq)]
pub struct Summary {
    /// How many lines were read, with those that were skipped.
    pub lines: u32,
    /// How many reads and writes were completed, whatever became of them.
    pub calls: u64,
    /// How many commit marks there are.
    pub commits: u64,
    /// How many rollback marks there are.
    pub rollbacks: u64,
    /// The version of the store.
    pub version: u64,
}

/// The line that ends a run whose every line was answered, with its newline.
pub fn summary_text(alloc: Global, summary: &Summary) -> Result<Vec<u8>, Memory>
    ensures { IfOk result (λ text. text.items ≡ summary_line summary.now) }
{
    let Summary {
        lines,
        calls,
        commits,
        rollbacks,
        version,
    } = summary;
    let text = format!(in alloc;
        "end lines={lines} calls={calls} commits={commits} rollbacks={rollbacks} version={version}\n"
    )?;
    Ok(text.into_bytes())
}

#[cfg(test)]
mod tests {
    use super::*;
    use std::test::Fail;

    #[test]
    fn the_last_line(rt: HostRuntime) -> Result<(), Fail> {
        let summary = Summary {
            lines: 6,
            calls: 2,
            commits: 0,
            rollbacks: 0,
            version: 1,
        };
        assert_eq!(rt;
            summary_text(rt.alloc(), &summary)?.as_slice(),
            b"end lines=6 calls=2 commits=0 rollbacks=0 version=1\n".as_slice()
        );
        Ok(())
    }
}
