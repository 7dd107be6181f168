//! Least stars: a new node, joined to a graph by as few lines as make it k-connected, with the sides that show it.
#![tactic(auto)]

mod arc_star;
mod balance;
mod counts;
mod edge_star;
mod value;

pub use arc_star::{TightArcStar, least_arc_star};
pub use edge_star::{TightStar, least_star};
