//! Fewest new edges that make a graph k-edge-connected (Watanabe and Nakamura 1987; Frank 1992).
#![tactic(auto)]

mod even;
mod fewest;
mod row;
mod split;

pub use fewest::augment;
