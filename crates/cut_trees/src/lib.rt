//! Cut trees, by n - 1 least cuts between two nodes, and least cuts read off them.
#![tactic(auto)]

mod branch;
mod law;
mod least;
mod order;
mod tree;
mod way;

pub use law::each_pair_has_one_side;
pub use least::least_cut;
pub use tree::cut_tree;
