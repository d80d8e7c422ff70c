ghost use Rattle.std.specs.Prelude.{◌≡◌, IfOk};
ghost use Rattle.casper_stores.specs.Lines.{formatted_line, checked_line};

use crate::Checked;
use casper_words::Memory;
use std::alloc::Global;

/// The line for a store that was made, with its newline.
pub fn formatted_text(alloc: Global, pages: u32, frames: u32) -> Result<Vec<u8>, Memory>
    ensures { IfOk result (λ text. text.items ≡ formatted_line pages frames) }
{
    let text = format!(in alloc; "formatted pages {pages} frames {frames}\n")?;
    Ok(text.into_bytes())
}

/// The line for a store that was checked, with its newline.
pub fn checked_text(alloc: Global, checked: &Checked) -> Result<Vec<u8>, Memory>
    ensures { IfOk result (λ text. text.items ≡ checked_line checked.now) }
{
    let Checked {
        pages,
        frames,
        version,
        used,
    } = checked;
    let text = format!(in alloc;
        "store format 1 pages {pages} frames {frames} version {version} used {used}\n"
    )?;
    Ok(text.into_bytes())
}

#[cfg(test)]
mod tests {
    use super::*;
    use std::test::Fail;

    #[test]
    fn the_line_of_a_new_store(rt: HostRuntime) -> Result<(), Fail> {
        let text = formatted_text(rt.alloc(), 16_384, 65_536)?;
        let want = b"formatted pages 16384 frames 65536\n";
        assert_eq!(rt; text.as_slice(), want.as_slice());
        Ok(())
    }

    #[test]
    fn the_line_of_a_check(rt: HostRuntime) -> Result<(), Fail> {
        let checked = Checked {
            pages: 8,
            frames: 16,
            version: 2,
            used: 4,
        };
        let text = checked_text(rt.alloc(), &checked)?;
        let want = b"store format 1 pages 8 frames 16 version 2 used 4\n";
        assert_eq!(rt; text.as_slice(), want.as_slice());
        Ok(())
    }
}
