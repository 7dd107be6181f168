ghost use Rattle.std.specs.Prelude.{ℕ, Bool, List};
ghost use Rattle.graph_core.specs.Graph.{GraphValue};
ghost use Rattle.graph_core.specs.Side.{meet, join};
ghost use Rattle.graph_core.specs.declared.graph.Kind.TheVariants.{Undirected, Directed};
ghost use Rattle.flow_cuts.specs.Cuts.{IsMinimumCut};
ghost use Rattle.flow_cuts.specs.GraphArcs.{arcs_of};
ghost use Rattle.flow_cuts.specs.Network.{IsCutFunction};
ghost use Rattle.flow_cuts.specs.declared.network.Cap.{Cap};

use cut_fn::{CutFn, EdgeCut, LeaveCut};

/// The cut function of a graph's network is the graph's own: d over edges, and δ over arcs. So its least cuts between two
/// sides are where that function is least.
pub fn capacity_is_the_cut()
    ensures edges { (g : GraphValue) → IsCutFunction (arcs_of Undirected g.lines) (⟦<EdgeCut<'static> as CutFn>⟧.cut g) }
    ensures arcs { (g : GraphValue) → IsCutFunction (arcs_of Directed g.lines) (⟦<LeaveCut<'static> as CutFn>⟧.cut g) }
{}

/// Where a network's cut function is submodular, the intersection and the union of two least cuts are least cuts. So one of
/// them is the smallest and one the largest.
pub fn least_cuts_meet_and_join<F: CutFn>(f: &F)
    ensures { (arcs : List Cap) (inside outside X Y : List Bool) (value : ℕ) → IsCutFunction arcs (F.cut f.now) → IsMinimumCut (F.nodes f.now) inside outside arcs value X → IsMinimumCut (F.nodes f.now) inside outside arcs value Y → IsMinimumCut (F.nodes f.now) inside outside arcs value (meet X Y) × IsMinimumCut (F.nodes f.now) inside outside arcs value (join X Y) }
{}
