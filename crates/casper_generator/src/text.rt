ghost use Rattle.std.specs.Prelude.{◌≡◌, IfOk};
ghost use Rattle.casper_generator.specs.Text.{gen_line_text};

use crate::GenLine;
use casper_words::Memory;
use std::alloc::Global;

/// The text of a line of a schedule, with the newline that ends it.
pub fn line_text(alloc: Global, line: &GenLine) -> Result<Vec<u8>, Memory>
    ensures { IfOk result (λ text. text.items ≡ gen_line_text line.now) }
{
    let text = match line {
        GenLine::Join(who) => format!(in alloc; "join {}\n", who.number()),
        GenLine::Read(who, page, word) => {
            format!(in alloc; "read {} {} {word}\n", who.number(), page.0)
        }
        GenLine::Write(who, page, word, value) => {
            format!(in alloc; "write {} {} {word} {value}\n", who.number(), page.0)
        }
        GenLine::Serve(who) => format!(in alloc; "serve {}\n", who.number()),
        GenLine::Stabilise(who) => format!(in alloc; "stabilise {}\n", who.number()),
        GenLine::WriteOut(lead) => format!(in alloc; "writeout {}\n", lead.number()),
        GenLine::Finish(lead) => format!(in alloc; "finish {}\n", lead.number()),
    };
    Ok(text?.into_bytes())
}

#[cfg(test)]
mod tests {
    use super::*;
    use casper_words::{Page, Who};
    use std::test::Fail;

    #[test]
    fn texts_of_lines(rt: HostRuntime) -> Result<(), Fail> {
        let who = Who::new(32).ok_or("32 is a client")?;
        let table = [
            (GenLine::Join(who), b"join 32\n".as_slice()),
            (GenLine::Read(who, Page(63), 511), b"read 32 63 511\n"),
            (
                GenLine::Write(who, Page(0), 0, u64::MAX),
                b"write 32 0 0 18446744073709551615\n",
            ),
            (GenLine::Serve(who), b"serve 32\n"),
            (GenLine::Stabilise(who), b"stabilise 32\n"),
            (GenLine::WriteOut(who), b"writeout 32\n"),
            (GenLine::Finish(who), b"finish 32\n"),
        ];
        for (line, want) in table {
            assert_eq!(rt; line_text(rt.alloc(), &line)?.as_slice(), want);
        }
        Ok(())
    }
}
