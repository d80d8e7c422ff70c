ghost use Rattle.std.specs.Prelude.{◌≡◌, not, true, is_some, IfOk, IfSome};
ghost use Rattle.casper_report.specs.Refusals.{counts, refusal_line};

use casper_words::Memory;
use std::alloc::Global;

/// Why a store was refused: there is none of that name, or one already, or what its blocks hold is no store that can be opened.
#[derive(Clone, Copy, Debug, PartialEq, Eq)]
pub enum Refusal {
    /// There is no store of that name.
    NoSuch,
    /// There is a store of that name already.
    Exists,
    /// The header does not begin with the name of a store.
    NotAStore,
    /// The store has another version of the format.
    Version(u32),
    /// The sizes in the header are out of range.
    BadSize { pages: u32, frames: u32 },
    /// The disk has fewer blocks than it needs.
    Short { need: u32, have: u32 },
    /// Both gates are closed.
    NoRoot,
    /// The sequence number of the current root is out of range, or it has another number of map blocks.
    BadBody { seq: u64, count: u32 },
    /// The frame number of a page or of a map block is out of range or is there twice.
    BadMap { page: u32, frame: u32 },
}

/// The line for a store that was refused, with its newline, where it tells no number.
pub fn constant_refusal(refusal: &Refusal) -> Option<&'static [u8]>
    ensures line { IfSome result (λ line. line.now ≡ refusal_line refusal.now) }
    ensures exactly { is_some result ≡ not (counts refusal.now) }
{
    let line: &[u8] = match refusal {
        Refusal::NoSuch => b"refused nosuch\n",
        Refusal::Exists => b"refused exists\n",
        Refusal::NotAStore => b"refused notastore\n",
        Refusal::NoRoot => b"refused noroot\n",
        Refusal::Version(_) | Refusal::BadSize { .. } | Refusal::Short { .. } => return None,
        Refusal::BadBody { .. } | Refusal::BadMap { .. } => return None,
    };
    Some(line)
}

/// The line for a store that was refused, with its newline, where it tells a number.
pub fn refusal_text(alloc: Global, refusal: &Refusal) -> Result<Vec<u8>, Memory>
    requires { counts refusal.now ≡ true }
    ensures { IfOk result (λ text. text.items ≡ refusal_line refusal.now) }
{
    let text = match refusal {
        Refusal::Version(version) => format!(in alloc; "refused version {version}\n")?,
        Refusal::BadSize { pages, frames } => {
            format!(in alloc; "refused badsize {pages} {frames}\n")?
        }
        Refusal::Short { need, have } => format!(in alloc; "refused short {need} {have}\n")?,
        Refusal::BadBody { seq, count } => format!(in alloc; "refused badbody {seq} {count}\n")?,
        Refusal::BadMap { page, frame } => format!(in alloc; "refused badmap {page} {frame}\n")?,
        Refusal::NoSuch | Refusal::Exists | Refusal::NotAStore | Refusal::NoRoot => {
            unreachable!()
        }
    };
    Ok(text.into_bytes())
}

#[cfg(test)]
mod tests {
    use super::*;
    use std::test::Fail;

    #[test]
    fn texts_without_numbers(rt: HostRuntime) -> Result<(), Fail> {
        let table: [(Refusal, &[u8]); 4] = [
            (Refusal::NoSuch, b"refused nosuch\n"),
            (Refusal::Exists, b"refused exists\n"),
            (Refusal::NotAStore, b"refused notastore\n"),
            (Refusal::NoRoot, b"refused noroot\n"),
        ];
        for (refusal, want) in table {
            assert_eq!(rt; constant_refusal(&refusal), Some(want));
        }
        Ok(())
    }

    #[test]
    fn texts_with_numbers(rt: HostRuntime) -> Result<(), Fail> {
        let table: [(Refusal, &[u8]); 5] = [
            (Refusal::Version(2), b"refused version 2\n"),
            (
                Refusal::BadSize {
                    pages: 0,
                    frames: 9,
                },
                b"refused badsize 0 9\n",
            ),
            (Refusal::Short { need: 5, have: 4 }, b"refused short 5 4\n"),
            (
                Refusal::BadBody { seq: 0, count: 17 },
                b"refused badbody 0 17\n",
            ),
            (
                Refusal::BadMap { page: 3, frame: 7 },
                b"refused badmap 3 7\n",
            ),
        ];
        for (refusal, want) in table {
            assert_eq!(rt; refusal_text(rt.alloc(), &refusal)?.as_slice(), want);
        }
        Ok(())
    }
}
