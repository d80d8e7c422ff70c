//! Texts as lists of bytes: the words of a line, and the numbers, names and references that words write.
#![tactic(auto)]

mod laws;
mod lines;
mod names;
mod numbers;
mod places;
mod references;
mod span;
mod word;

pub use laws::{line_laws, name_laws, number_laws, reference_laws};
pub use lines::words_of;
pub use names::name;
pub use numbers::{number, small_number};
pub use places::Places;
pub use references::reference;
pub use span::Span;
pub use word::Word;
