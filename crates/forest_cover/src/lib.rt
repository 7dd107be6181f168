//! The fewest forests that cover the edges of a graph, by disjoint forests.
#![tactic(auto)]

mod cover;
mod dense;

pub use cover::cover_forests;
