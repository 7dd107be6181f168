//! The plain text of a graph, read and written line by line.
#![tactic(auto)]

mod cause;
mod draft;
mod item;
mod law;
mod limits;
mod line;
mod number;
mod read;
mod refusal;
mod words;
mod write;

pub use law::{one_reading, one_reading_alone, plain_text_reads_back};
pub use read::{read_graph, read_graph_alone};
pub use refusal::{GraphRefusal, Why};
pub use write::write_graph;
