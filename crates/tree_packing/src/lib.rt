//! The most edge-disjoint spanning trees, by disjoint forests.
#![tactic(auto)]

mod first;
mod packing;

pub use packing::pack_trees;
