//! Packings of branchings and of spanning arborescences (Edmonds), after Lovász's proof.
#![tactic(auto)]

mod arborescences;
mod network;
mod packing;
mod round;

pub use arborescences::pack_arborescences;
pub use packing::pack_rooted;
