use crate::adjacency::Adjacency;
use graph_core::Side;

/// The steps that one may go, and the two sides between which to send.
#[derive(Drop)]
pub struct Course {
    pub steps: Adjacency,
    pub inside: Side,
    pub outside: Side,
}
