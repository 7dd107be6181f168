//! Cut functions: submodular functions of the sides of a graph or of a star, and uncrossing.
#![tactic(auto)]

mod function;
mod graph_cuts;
mod stars;
mod uncross;

pub use function::{CutFn, Symmetric};
pub use graph_cuts::{EdgeCut, EnterCut, LeaveCut};
pub use stars::{ArcStar, Star, StarCut, StarEnter, StarLeave, sum_counts, total_count};
pub use uncross::{Merged, disjoin, merge, tight_differences, tight_union};
