ghost use Rattle.std.specs.Prelude.{◌≡◌, ◌≤◌, ◌<◌, [], ◌∷◌, ◌++◌, MatchOption};
ghost use Rattle.casper_generator.specs.Lines.{word_of, state_after, client_of, lines_of, lines_by, finish_lines};

use crate::GenLine;
use casper_words::{Page, Who};
use rand_core::SeedableRng;
use rand_core::utils::NextWord;
use rand_xoshiro::SplitMix64;
use std::marker::Model;

/// The lines of one schedule, made one after another from a seed. Contracts see the list of the lines that are still to come.
#[derive(Drop)]
pub struct Generator {
    random: SplitMix64,
    clients: u32,
    joined: u32,
    /// How many draws are left.
    ops: u32,
    /// The lead whose write-out was the last line.
    finish: Option<Who>,
    served: u32,
}

impl Model for Generator {
    ghost use Rattle.std.specs.Prelude.{List, ◌≤◌};
    ghost use Rattle.casper_generator.specs.declared.gen_line.GenLine.{GenLine};

    ghost Value = { List GenLine };

    ghost use Rattle.casper_generator.specs.Lines.{lines_left};

    ghost view = { λ own. lines_left own.clients own.joined own.ops own.finish own.served own.random };

    ghost invariant = { λ own. (1 ≤ own.clients) × (own.clients ≤ 32) × (own.joined ≤ own.clients) × (own.served ≤ own.clients) };
}

impl Generator {
    /// The schedule of a seed for so many clients, 1 to 32, with so many draws between the joins and the last serves.
    pub fn new(seed: u64, clients: u32, ops: u32) -> Generator
        requires least { 1 ≤ clients }
        requires most { clients ≤ 32 }
        ensures { result ≡ lines_of seed clients ops }
    {
        Generator {
            random: SplitMix64::seed_from_u64(seed),
            clients,
            joined: 0,
            ops,
            finish: None,
            served: 0,
        }
    }

    /// The next line, if one is left.
    pub fn next(&mut self) -> Option<GenLine>
        ensures { MatchOption result ((self.old ≡ [])
            × (self.new ≡ [])) (λ line. self.old ≡ line ∷ self.new) }
    {
        if self.joined < self.clients {
            self.joined += 1;
            return Some(GenLine::Join(client(self.joined)));
        }
        if let Some(lead) = self.finish {
            self.finish = None;
            return Some(GenLine::Finish(lead));
        }
        if self.ops > 0 {
            self.ops -= 1;
            let (line, finish) = drawn_line(next_word(&mut self.random), self.clients);
            self.finish = finish;
            return Some(line);
        }
        if self.served < self.clients {
            self.served += 1;
            return Some(GenLine::Serve(client(self.served)));
        }
        None
    }
}

/// The next word of a generator of random words.
fn next_word(random: &mut SplitMix64) -> u64
    ensures word { result ≡ word_of random.old }
    ensures state { random.new ≡ state_after random.old }
{
    random.next_word()
}

/// The line that a word draws, and the lead whose write-out must be finished after it, if it is one.
fn drawn_line(word: u64, clients: u32) -> (GenLine, Option<Who>)
    requires least { 1 ≤ clients }
    requires most { clients ≤ 32 }
    ensures { lines_by clients word ≡ result.0 ∷ finish_lines result.1 }
{
    let who = drawn_client(word, clients);
    let page = Page((word / 1024 % 64) as u32);
    let place = (word / 65536 % 512) as u32;
    match word / 64 % 16 {
        0..=6 => (GenLine::Read(who, page, place), None),
        7..=12 => (GenLine::Write(who, page, place, word >> 32), None),
        13 => (GenLine::Serve(who), None),
        14 => (GenLine::Stabilise(who), None),
        _ => (GenLine::WriteOut(who), Some(who)),
    }
}

/// The client that a word draws.
fn drawn_client(word: u64, clients: u32) -> Who
    requires least { 1 ≤ clients }
    requires most { clients ≤ 32 }
    ensures { result ≡ client_of clients word }
{
    client((word % u64::from(clients)) as u32 + 1)
}

/// The client of a number.
fn client(number: u32) -> Who
    requires least { 1 ≤ number }
    requires most { number ≤ 32 }
    ensures { result ≡ number }
{
    Who::new(number).unwrap()
}

#[cfg(test)]
mod tests {
    use super::*;
    use crate::line_text;
    use std::test::Fail;

    #[test]
    fn schedules(rt: HostRuntime) -> Result<(), Fail> {
        let table = [
            (
                (0, 2, 2),
                b"join 1\njoin 2\nread 2 51 285\nwrite 1 25 441 1853398634\nserve 1\nserve 2\n".as_slice(),
            ),
            ((7, 1, 0), b"join 1\nserve 1\n"),
        ];
        for ((seed, clients, ops), want) in table {
            let mut generator = Generator::new(seed, clients, ops);
            let mut text = Vec::new(rt.alloc());
            for _ in 0..2 * clients + 2 * ops {
                if let Some(line) = generator.next() {
                    text.extend_from_slice(&line_text(rt.alloc(), &line)?)?;
                }
            }
            assert_eq!(rt; generator.next(), None);
            assert_eq!(rt; text.as_slice(), want);
        }
        Ok(())
    }
}
