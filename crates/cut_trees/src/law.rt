ghost use Rattle.std.specs.Prelude.{ℕ, List, All, length};
ghost use Rattle.graph_core.specs.Graph.{GraphValue};
ghost use Rattle.problem_defs.specs.CutTree.{IsSpanningTree};
ghost use Rattle.cut_trees.specs.PairSide.{HasOneSide};

/// In a spanning tree of pairs exactly one side holds a pair's first node, misses its second, and
/// is crossed by no other pair.
pub fn each_pair_has_one_side()
    ensures { (g : GraphValue) (pairs : List (ℕ × ℕ × ℕ)) → IsSpanningTree g pairs → All (HasOneSide (length g.names) pairs) pairs }
{}
