//! Disjoint free sets of a matroid, by matroid union.
#![tactic(auto)]

mod ends;
mod exchange;
mod greedy;
mod growing;
mod matroid;
mod packing;
mod parts;
mod search;

pub use matroid::Matroid;
pub use parts::{FreeParts, union};
