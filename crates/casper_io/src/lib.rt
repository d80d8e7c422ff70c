//! Where bytes come from and go to, lines, and the counts of what failed.
#![tactic(auto)]

mod again;
mod failing;
mod fault;
mod laws;
mod line;
mod lines;
mod mem_sink;
mod mem_source;
mod piece;
mod sink;
mod source;
mod spare;
mod std_sink;
mod std_source;

pub use fault::IoFault;
pub use laws::each_is_cut_once;
pub use line::Line;
pub use lines::{MOST_LINES, Next, next_line};
pub use mem_sink::MemSink;
pub use mem_source::MemSource;
pub use piece::Piece;
pub use sink::{Sink, put_all};
pub use source::Source;
pub use std_sink::StdSink;
pub use std_source::StdSource;
