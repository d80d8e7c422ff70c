use casper_space::Answer;

/// Why a hold was refused.
#[derive(Clone, Copy, Debug, PartialEq, Eq)]
pub enum HoldRefusal {
    /// There was too little memory.
    Memory,
    /// The answer to the client.
    Answer(Answer),
}
