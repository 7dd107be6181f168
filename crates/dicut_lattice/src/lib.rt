//! The lattice of dicuts: closed sides, tight sides of a dijoin, and the pieces of a level.
#![tactic(auto)]

mod closed;
mod cover;
mod families;
mod join_cut;
mod jumps;
mod kernel;
mod level;
mod network;
mod picks;
mod reach;
mod search;
mod tight;
mod uptake;

pub use closed::{blocked, is_closed, is_dijoin, missed};
pub use jumps::exchange;
pub use kernel::Kernels;
pub use tight::Tight;
