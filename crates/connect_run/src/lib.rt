//! The call that a program makes: words, a source and a sink in, a status out.
#![tactic(auto)]

mod answer;
mod lines;
mod solving;
mod status;
mod top;
mod trial;

pub use solving::solve;
pub use status::Status;
pub use top::connect_run;
