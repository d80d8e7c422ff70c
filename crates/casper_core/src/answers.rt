ghost use Rattle.std.specs.Prelude.{◌≡◌, ◌≢◌, Some, IfOk, OnErr};
ghost use Rattle.casper_model.specs.declared.reply.JoinRefusal.TheVariants as refused;
ghost use Rattle.casper_model.specs.Answers.{of_join, of_reply, of_served, of_stabilise, of_failure, of_write_out, of_finish, of_depart, of_vanish, of_lose};
ghost use Rattle.casper_model.specs.WriteOutStep.{of_settled};

use casper_model::{Finished, JoinRefusal, Loss, Outcome, Reply, Served, StabReply};
use casper_space::Answer;
use casper_words::Memory;

/// The answer to a join that was refused, but for want of memory.
pub(crate) fn answer_of_join(refusal: JoinRefusal) -> Result<Answer, Memory>
    ensures answer { IfOk result (λ answer. (answer ≡ of_join (Some refusal))
        × (refusal ≢ refused.Memory)) }
    ensures memory { OnErr result (refusal ≡ refused.Memory) }
{
    match refusal {
        JoinRefusal::Memory => Err(Memory),
        JoinRefusal::Busy => Ok(Answer::Busy),
        JoinRefusal::TrailFull(entries) => Ok(Answer::TrailFull(entries)),
    }
}

/// The answer to an acquire, by the reply of its turn.
pub(crate) fn answer_of(reply: Reply) -> Answer
    ensures { result ≡ of_reply reply }
{
    match reply {
        Reply::Granted => Answer::Granted,
        Reply::Pending(blockers) => Answer::Pending(blockers),
        Reply::Frozen(lead) => Answer::Frozen(lead),
        Reply::InDoubt => Answer::InDoubt,
        Reply::RolledBack {
            mark,
            recorded,
            unrecorded,
        } => Answer::RolledBack {
            mark,
            recorded,
            unrecorded,
        },
        Reply::TrailFull(entries) => Answer::TrailFull(entries),
        Reply::Load { .. } => Answer::Disk,
    }
}

/// The answer to a serve, by the reply of its turn.
pub(crate) fn answer_of_serve(reply: Served) -> Answer
    ensures { result ≡ of_served reply }
{
    match reply {
        Served::Ok => Answer::Ok,
        Served::RolledBack {
            mark,
            recorded,
            unrecorded,
        } => Answer::RolledBack {
            mark,
            recorded,
            unrecorded,
        },
    }
}

/// The answer to a stabilise, by the reply of its turn.
pub(crate) fn answer_of_stabilise(reply: StabReply) -> Answer
    ensures { result ≡ of_stabilise reply }
{
    match reply {
        StabReply::Gathering(awaited) => Answer::Gathering(awaited),
        StabReply::Sealed(pages) => Answer::Sealed(pages),
        StabReply::Doing(lead) => Answer::Doing(lead),
        StabReply::Doubtful(lead) => Answer::Doubtful(lead),
        StabReply::Committed(mark) => Answer::Commit(mark),
        StabReply::Failed(cause) => answer_of_failure(cause),
        StabReply::RolledBack {
            mark,
            recorded,
            unrecorded,
        } => Answer::RolledBack {
            mark,
            recorded,
            unrecorded,
        },
    }
}

/// The answer that tells of a write-out that failed, after its finish.
fn answer_of_failure(cause: Outcome) -> Answer
    ensures { result ≡ of_failure cause }
{
    match cause {
        Outcome::Ok(version) => Answer::Written(version),
        Outcome::Full { need, free } => Answer::FailedFull { need, free },
        Outcome::Worn => Answer::FailedWorn,
        Outcome::Disk => Answer::FailedDisk { doubt: false },
        Outcome::Doubt => Answer::InDoubt,
    }
}

/// The answer to a write-out, by how it ended.
pub(crate) fn answer_of_write_out(outcome: Outcome) -> Answer
    ensures { result ≡ of_write_out outcome }
{
    match outcome {
        Outcome::Ok(version) => Answer::Written(version),
        Outcome::Full { need, free } => Answer::Full { need, free },
        Outcome::Worn => Answer::Worn,
        Outcome::Disk => Answer::Disk,
        Outcome::Doubt => Answer::Doubt,
    }
}

/// The answer to a finish, by what became of the write-out.
pub(crate) fn answer_of_finish(done: Option<Finished>) -> Answer
    ensures { result ≡ of_finish done }
{
    match done {
        None => Answer::NoJob,
        Some(Finished::Committed(mark)) => Answer::Commit(mark),
        Some(Finished::Failed(cause)) => answer_of_failure(cause),
        Some(Finished::Undone(mark)) => Answer::Undone(mark),
        Some(Finished::Doubt) => Answer::InDoubt,
    }
}

/// The answer to a settle of the vault that was made, by the place of the mark.
pub(crate) fn answer_of_settled(mark: Option<u64>) -> Answer
    ensures { result ≡ of_settled mark }
{
    match mark {
        None => Answer::Nothing,
        Some(place) => Answer::Commit(place),
    }
}

/// The answer to a departure, by the reply of its turn.
pub(crate) fn answer_of_depart(reply: Served) -> Answer
    ensures { result ≡ of_depart reply }
{
    match reply {
        Served::Ok => Answer::Left,
        Served::RolledBack {
            mark,
            recorded,
            unrecorded,
        } => Answer::RolledBack {
            mark,
            recorded,
            unrecorded,
        },
    }
}

/// The answer to the vanishing of a client, by the reply of its turn.
pub(crate) fn answer_of_vanish(reply: Loss) -> Answer
    ensures { result ≡ of_vanish reply }
{
    match reply {
        Loss::Lost { mark, unrecorded } => Answer::VanishLost { mark, unrecorded },
        Loss::Noted { lead, unrecorded } => Answer::VanishNoted { lead, unrecorded },
        Loss::Already { mark } => Answer::Already(mark),
    }
}

/// The answer to a declared loss, by the reply of its turn.
pub(crate) fn answer_of_lose(reply: Loss) -> Answer
    ensures { result ≡ of_lose reply }
{
    match reply {
        Loss::Lost { mark, .. } => Answer::LoseLost(mark),
        Loss::Noted { lead, .. } => Answer::LoseNoted(lead),
        Loss::Already { mark } => Answer::Already(mark),
    }
}
