ghost use Rattle.std.specs.Prelude.{◌≡◌, ◌++◌, ◌∷◌, [], ℕ, ◌<◌, ◌≤◌, length, replicate, IfOk, OnOk, true, false, slice_set};
ghost use Rattle.lucchesi_younger.specs.Search.{node};
ghost use Rattle.graph_core.specs.Limits.{side_room};

use crate::work::{Step, Visit};
use graph_core::{NoMemory, Side};
use std::alloc::Global;

/// A search: the nodes that it reached, and its visits in their order.
#[derive(Drop)]
pub(crate) struct Search {
    pub(crate) reached: Side,
    pub(crate) visits: Vec<Visit>,
}

impl Search {
    /// Begins at the end of a step, among n nodes.
    pub(crate) fn start(alloc: Global, n: usize, step: Step) -> Result<Search, NoMemory>
        requires few { n ≤ side_room }
        requires below { step.to < n }
        ensures reached { IfOk result (λ s. s.reached ≡ slice_set (replicate n false) step.to true) }
        ensures visits { IfOk result (λ s. s.visits.items ≡ record { step = step; back = 0 } ∷ []) }
    {
        let mut reached = Side::empty(alloc, n)?;
        reached.put(step.to, true);
        let mut visits = Vec::new(alloc);
        visits.push(Visit { step, back: 0 })?;
        Ok(Search { reached, visits })
    }

    /// Reaches the end of a step from the visit at a place.
    pub(crate) fn reach(&mut self, step: Step, back: usize) -> Result<(), NoMemory>
        requires { step.to < length self.old.reached }
        ensures reached { OnOk result (self.new.reached ≡ slice_set self.old.reached step.to true) }
        ensures visits { OnOk result (self.new.visits.items ≡ self.old.visits.items ++ record { step = step; back = back } ∷ []) }
    {
        self.visits.push(Visit { step, back })?;
        self.reached.put(step.to, true);
        Ok(())
    }

    /// The place of the visit that came to the node.
    pub(crate) fn place_of(&self, wanted: u32) -> usize
        requires { (i : ℕ) × (i < length self.now.visits.items) × (node self.now.visits.items i ≡ wanted) }
        ensures within { result < length self.now.visits.items }
        ensures found { node self.now.visits.items result ≡ wanted }
    {
        for i in 0..self.visits.len() {
            if self.visits[i].step.to == wanted {
                return i;
            }
        }
        unreachable!("a visit came to each node that is reached")
    }
}
