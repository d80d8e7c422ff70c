//! Tests that cross crates: rows of words, input, output and status, over the top call.
#![tactic(auto)]

#[cfg(test)]
mod files;
#[cfg(test)]
mod first_path;
#[cfg(test)]
mod images;
#[cfg(test)]
mod losses;
#[cfg(test)]
mod recalls;
#[cfg(test)]
mod reopenings;
#[cfg(test)]
mod replaying;
#[cfg(test)]
mod stabilisations;
#[cfg(test)]
mod stores;
