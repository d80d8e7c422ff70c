//! Makes a store in a file and commits random pages of it, and times hits of a cache, for measurements.
#![tactic(auto)]

mod commits;
mod counted;
mod fault;
mod hits;
mod job;

use crate::job::{Job, job_of};
use std::process::ExitCode;
use std::{env, io};

/// What the words may be.
const USAGE: &str =
    "usage: casper_bench make FILE | casper_bench commit FILE PAGES COMMITS | casper_bench hits PAGES ROUNDS\n";

fn main(rt: HostRuntime) -> ExitCode {
    let words = match words_given(&rt) {
        Ok(words) => words,
        Err(_) => return ExitCode::from(2),
    };
    let Some(job) = job_of(&words) else {
        let _told = print!(rt; "{USAGE}");
        return ExitCode::from(2);
    };
    let done = match job {
        Job::Make { file } => commits::make(&rt, file),
        Job::Commit {
            file,
            pages,
            commits,
        } => commits::commit(&rt, file, pages, commits),
        Job::Hits { pages, rounds } => hits::hits(&rt, pages, rounds),
    };
    match done {
        Ok(()) => ExitCode::SUCCESS,
        Err(fault) => {
            let _told = eprintln!(rt; "casper_bench: {fault:?}");
            ExitCode::FAILURE
        }
    }
}

/// The words after the program's name.
fn words_given(rt: &HostRuntime) -> io::Result<Vec<String>> {
    let mut words = Vec::new(rt.alloc());
    for word in env::args(rt)?.skip(1) {
        words.push(word)?;
    }
    Ok(words)
}
