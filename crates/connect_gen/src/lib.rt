//! Graphs made from a number, alike at each run.
#![tactic(auto)]

mod draws;
mod generated;

pub use generated::make;
