//! The words of a command line, read as a command, and what that command asks of a graph.
#![tactic(auto)]

mod asks;
mod blank;
mod command;
mod law;
mod number;
mod trial;
mod words;

pub use asks::ask_of;
pub use command::{Command, TrialKind, WordFault};
pub use law::words_have_one_meaning;
pub use trial::{graph_kind, trial_ask};
pub use words::read_words;
