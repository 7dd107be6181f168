//! Splitting off in a star of arcs: an arc to the new node and one from it become one arc (Mader 1982).
#![tactic(auto)]

mod all;
mod half;
mod least;
mod many;
mod partners;
mod state;

pub use all::split_all;
pub use many::{most, split_many};
pub use partners::partner;
