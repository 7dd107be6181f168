//! Splitting off pairs of edges in a star of a graph (Lovász 1979).
#![tactic(auto)]

mod largest;
mod least;
mod many;
mod rest;
mod single;
mod witness;

pub use largest::most;
pub use many::split_many;
pub use single::{partner, split_all};
