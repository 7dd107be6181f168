//! Least cuts and disjoint walks, by flows.
#![tactic(auto)]

mod adjacency;
mod arcs;
mod certified;
mod course;
mod flow;
mod law;
mod levels;
mod network;
mod node_cuts;
mod pair_search;
mod residual;
mod search;
mod sides;
mod sparse;
mod star_flow;
mod walks;

pub use arcs::{add_new_node, arcs_by, edge_arcs};
pub use certified::most_walks;
pub use flow::Flow;
pub use law::{capacity_is_the_cut, least_cuts_meet_and_join};
pub use network::Cap;
pub use node_cuts::NodeCuts;
pub use pair_search::least_over;
pub use sparse::{is_parted, sparse_side};
pub use star_flow::StarFlow;
