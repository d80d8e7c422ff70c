ghost use Rattle.std.specs.Prelude.{◌≡◌, ◌≤◌, [], ◌∷◌, ◌++◌, if◌then◌else◌, true, false, OnOk, IsOk, IfOk, IfSome, is_some};
ghost use Rattle.std.specs.Fmt.{decimal};
ghost use Rattle.casper_words.specs.Crew.{has_member, IsCrew};
ghost use Rattle.casper_report.specs.Texts.{answer_line, is_constant, as_line, word_line, pair_line, rolled_back_line, frames_line, crew_line};

use casper_space::Answer;
use casper_words::{Crew, Memory, Who};
use itoa::Buffer;

/// The line that answers an event, with its newline. Where its text is constant, nothing is copied and no memory is asked for.
/// Else it stands in the room, in the place of what that had, and memory is asked for only where the room is too small for it.
pub fn answer_text<'a>(answer: &Answer, room: &'a mut Vec<u8>) -> Result<&'a [u8], Memory>
    ensures text { IfOk result (λ text. text.now ≡ answer_line answer.now) }
    ensures constant { is_constant answer.now ≡ true → IsOk result }
{
    if let Some(text) = constant_text(answer) {
        return Ok(text);
    }
    set_answer_text(room, answer)?;
    Ok(room.as_slice())
}

/// The line that answers an event, where it is the same whatever the answer tells.
fn constant_text(answer: &Answer) -> Option<&'static [u8]>
    ensures text { IfSome result (λ text. text.now ≡ answer_line answer.now) }
    ensures constant { is_some result ≡ is_constant answer.now }
{
    let text: &[u8] = match answer {
        Answer::Joined => b"joined\n",
        Answer::Busy => b"busy\n",
        Answer::Absent => b"absent\n",
        Answer::Range => b"range\n",
        Answer::Ok => b"ok\n",
        Answer::Granted => b"granted\n",
        Answer::InDoubt => b"indoubt\n",
        Answer::Disk => b"disk\n",
        Answer::FailedWorn => b"failed worn\n",
        Answer::FailedDisk { doubt: true } => b"failed disk in doubt\n",
        Answer::FailedDisk { doubt: false } => b"failed disk\n",
        Answer::Worn => b"worn\n",
        Answer::Doubt => b"doubt\n",
        Answer::NoJob => b"nojob\n",
        Answer::Nothing => b"nothing\n",
        Answer::Left => b"left\n",
        _ => return None,
    };
    Some(text)
}

/// Puts the line that answers an event into the place of what the text had, where it tells a number or clients. Where memory is
/// short, the text is of no use.
fn set_answer_text(text: &mut Vec<u8>, answer: &Answer) -> Result<(), Memory>
    requires { is_constant answer.now ≡ false }
    ensures { OnOk result (text.new.items ≡ answer_line answer.now) }
{
    match answer {
        Answer::Value(value) => set_number(text, *value),
        Answer::Pending(blockers) => set_crew(text, b"pending", *blockers),
        Answer::Frozen(lead) => set_word(text, b"frozen", u64::from(lead.number())),
        Answer::RolledBack {
            mark,
            recorded,
            unrecorded,
        } => set_rolled_back(text, *mark, *recorded, *unrecorded),
        Answer::TrailFull(entries) => set_word(text, b"trailfull", u64::from(*entries)),
        Answer::Gathering(awaited) => set_crew(text, b"gathering", *awaited),
        Answer::Sealed(pages) => set_word(text, b"sealed", u64::from(*pages)),
        Answer::Doing(lead) => set_word(text, b"doing", u64::from(lead.number())),
        Answer::Doubtful(lead) => set_word(text, b"doubt", u64::from(lead.number())),
        Answer::Commit(mark) => set_word(text, b"commit", *mark),
        Answer::FailedFull { need, free } => set_frames(text, b"failed full", *need, *free),
        Answer::Written(version) => set_word(text, b"written", *version),
        Answer::Full { need, free } => set_frames(text, b"full", *need, *free),
        Answer::Vault(lead) => set_word(text, b"vault", u64::from(lead.number())),
        Answer::Undone(mark) => set_word(text, b"undone", *mark),
        Answer::VanishLost { mark, unrecorded } => set_pair(text, b"lost", *mark, *unrecorded),
        Answer::VanishNoted { lead, unrecorded } => {
            set_pair(text, b"noted", u64::from(lead.number()), *unrecorded)
        }
        Answer::LoseLost(mark) => set_word(text, b"lost", *mark),
        Answer::LoseNoted(lead) => set_word(text, b"noted", u64::from(lead.number())),
        Answer::Already(mark) => set_word(text, b"already", *mark),
        Answer::Reopened(version) => set_word(text, b"reopened", *version),
        _ => unreachable!(),
    }
}

/// Adds bytes to a text.
fn push_text(text: &mut Vec<u8>, bytes: &[u8]) -> Result<(), Memory>
    ensures { OnOk result (text.new.items ≡ text.old.items ++ bytes.now) }
{
    text.extend_from_slice(bytes)?;
    Ok(())
}

/// Adds a number to a text.
fn push_number(text: &mut Vec<u8>, number: u64) -> Result<(), Memory>
    ensures { OnOk result (text.new.items ≡ text.old.items ++ decimal number) }
{
    let mut digits = Buffer::new();
    push_text(text, digits.format(number).as_bytes())
}

/// Makes a text these bytes.
fn set_text(text: &mut Vec<u8>, bytes: &[u8]) -> Result<(), Memory>
    ensures { OnOk result (text.new.items ≡ bytes.now) }
{
    text.clear();
    push_text(text, bytes)
}

/// A number, as a line.
fn set_number(text: &mut Vec<u8>, number: u64) -> Result<(), Memory>
    ensures { OnOk result (text.new.items ≡ as_line (decimal number)) }
{
    text.clear();
    push_number(text, number)?;
    push_text(text, b"\n")
}

/// A word and a number, as a line.
fn set_word(text: &mut Vec<u8>, word: &[u8], number: u64) -> Result<(), Memory>
    ensures { OnOk result (text.new.items ≡ word_line word.now number) }
{
    set_text(text, word)?;
    push_text(text, b" ")?;
    push_number(text, number)?;
    push_text(text, b"\n")
}

/// A word and two numbers, as a line.
fn set_pair(text: &mut Vec<u8>, word: &[u8], first: u64, second: u32) -> Result<(), Memory>
    ensures { OnOk result (text.new.items ≡ pair_line word.now first second) }
{
    set_text(text, word)?;
    push_text(text, b" ")?;
    push_number(text, first)?;
    push_text(text, b" ")?;
    push_number(text, u64::from(second))?;
    push_text(text, b"\n")
}

/// The mark of a rollback, and what it dropped of a client, as a line.
fn set_rolled_back(
    text: &mut Vec<u8>,
    mark: u64,
    recorded: u32,
    unrecorded: u32,
) -> Result<(), Memory>
    ensures { OnOk result (text.new.items ≡ rolled_back_line mark recorded unrecorded) }
{
    set_text(text, b"rolledback ")?;
    push_number(text, mark)?;
    push_text(text, b" ")?;
    push_number(text, u64::from(recorded))?;
    push_text(text, b" ")?;
    push_number(text, u64::from(unrecorded))?;
    push_text(text, b"\n")
}

/// A word, and the frames that a commit needs and those that are free, as a line.
fn set_frames(text: &mut Vec<u8>, word: &[u8], need: u32, free: u32) -> Result<(), Memory>
    ensures { OnOk result (text.new.items ≡ frames_line word.now need free) }
{
    set_text(text, word)?;
    push_text(text, b" need ")?;
    push_number(text, u64::from(need))?;
    push_text(text, b" free ")?;
    push_number(text, u64::from(free))?;
    push_text(text, b"\n")
}

/// A word and clients, rising, as a line.
fn set_crew(text: &mut Vec<u8>, word: &[u8], crew: Crew) -> Result<(), Memory>
    ensures { OnOk result (text.new.items ≡ crew_line word.now crew) }
{
    set_text(text, word)?;
    for below in 0..Who::MOST {
        push_member(text, crew, below + 1)?;
    }
    push_text(text, b"\n")?;
    Ok(())
}

/// Adds a client, where it is a member.
fn push_member(text: &mut Vec<u8>, crew: Crew, number: u32) -> Result<(), Memory>
    requires least { 1 ≤ number }
    requires most { number ≤ 32 }
    ensures text { OnOk result (text.new.items
        ≡ text.old.items ++ (if has_member number crew then 32 ∷ decimal number else [])) }
    ensures crew { IsCrew crew }
{
    let Some(who) = Who::new(number) else {
        unreachable!()
    };
    if crew.has(who) {
        push_text(text, b" ")?;
        push_number(text, u64::from(number))?;
    }
    Ok(())
}

#[cfg(test)]
mod tests {
    use super::*;
    use std::test::Fail;

    #[test]
    fn texts_of_answers(rt: HostRuntime) -> Result<(), Fail> {
        let lead = Who::new(7).ok_or("7 is a client")?;
        let last = Who::new(32).ok_or("32 is a client")?;
        let crew = Crew::none().with(last).with(lead);
        let table: [(Answer, &[u8]); 38] = [
            (Answer::Joined, b"joined\n"),
            (Answer::Busy, b"busy\n"),
            (Answer::Absent, b"absent\n"),
            (Answer::Range, b"range\n"),
            (Answer::Value(u64::MAX), b"18446744073709551615\n"),
            (Answer::Ok, b"ok\n"),
            (Answer::Granted, b"granted\n"),
            (Answer::Pending(crew), b"pending 7 32\n"),
            (Answer::Frozen(lead), b"frozen 7\n"),
            (Answer::InDoubt, b"indoubt\n"),
            (
                Answer::RolledBack {
                    mark: 9,
                    recorded: 2,
                    unrecorded: 0,
                },
                b"rolledback 9 2 0\n",
            ),
            (Answer::TrailFull(4_194_304), b"trailfull 4194304\n"),
            (Answer::Disk, b"disk\n"),
            (Answer::Gathering(crew), b"gathering 7 32\n"),
            (Answer::Sealed(1), b"sealed 1\n"),
            (Answer::Doing(lead), b"doing 7\n"),
            (Answer::Doubtful(lead), b"doubt 7\n"),
            (Answer::Commit(3), b"commit 3\n"),
            (
                Answer::FailedFull { need: 5, free: 4 },
                b"failed full need 5 free 4\n",
            ),
            (Answer::FailedWorn, b"failed worn\n"),
            (Answer::FailedDisk { doubt: false }, b"failed disk\n"),
            (
                Answer::FailedDisk { doubt: true },
                b"failed disk in doubt\n",
            ),
            (Answer::Written(2), b"written 2\n"),
            (Answer::Full { need: 5, free: 4 }, b"full need 5 free 4\n"),
            (Answer::Worn, b"worn\n"),
            (Answer::Doubt, b"doubt\n"),
            (Answer::NoJob, b"nojob\n"),
            (Answer::Vault(lead), b"vault 7\n"),
            (Answer::Undone(6), b"undone 6\n"),
            (Answer::Nothing, b"nothing\n"),
            (Answer::Left, b"left\n"),
            (
                Answer::VanishLost {
                    mark: 0,
                    unrecorded: 3,
                },
                b"lost 0 3\n",
            ),
            (
                Answer::VanishNoted {
                    lead,
                    unrecorded: 3,
                },
                b"noted 7 3\n",
            ),
            (Answer::LoseLost(0), b"lost 0\n"),
            (Answer::LoseNoted(last), b"noted 32\n"),
            (Answer::Already(8), b"already 8\n"),
            (Answer::Reopened(2), b"reopened 2\n"),
            (Answer::Pending(Crew::none()), b"pending\n"),
        ];
        let mut room = Vec::new(rt.alloc());
        for (answer, want) in table {
            assert_eq!(rt; answer_text(&answer, &mut room)?, want);
        }
        Ok(())
    }
}
