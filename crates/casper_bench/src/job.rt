/// What the program is to do.
#[derive(Clone, Copy)]
pub enum Job<'a> {
    /// Make a store in a new file.
    Make {
        file: &'a str,
    },
    /// Commit so many random pages so many times.
    Commit {
        file: &'a str,
        pages: u32,
        commits: u32,
    },
    /// Time hits on so many held pages, so many rounds.
    Hits {
        pages: u32,
        rounds: u32,
    },
}

/// What the words ask for, if they are words of this program.
pub fn job_of(words: &[String]) -> Option<Job<'_>> {
    match words.len() {
        2 if words[0].as_str() == "make" => Some(Job::Make {
            file: words[1].as_str(),
        }),
        4 if words[0].as_str() == "commit" => Some(Job::Commit {
            file: words[1].as_str(),
            pages: words[2].parse().ok()?,
            commits: words[3].parse().ok()?,
        }),
        3 if words[0].as_str() == "hits" => Some(Job::Hits {
            pages: words[1].parse().ok()?,
            rounds: words[2].parse().ok()?,
        }),
        _ => None,
    }
}
