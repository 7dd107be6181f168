ghost use Rattle.std.specs.Prelude.{◌≡◌, ◌<◌, ◌+◌, ℕ, List, length, map, All, OnOk, IfOk, slice_index};
ghost use Rattle.graph_core.specs.declared.graph.Kind.TheVariants.{Undirected};
ghost use Rattle.graph_core.specs.declared.graph.Line.{Line as LineOf};
ghost use Rattle.problem_defs.specs.CutTree.{IsCutTree};
ghost use Rattle.cut_trees.specs.declared.branch.Branch.{Branch as BranchOf};
ghost use Rattle.cut_trees.specs.Branch.{at, pair_of};
ghost use Rattle.flow_cuts.specs.NodeCuts.{IsLeastNodeCut};
ghost use Rattle.cut_trees.specs.Grown.{IsGrown};
ghost use Rattle.cut_trees.specs.Turn.{IsTurn, Follows};

use crate::branch::{Branch, lead_on, represent, turn_branches};
use flow_cuts::NodeCuts;
use graph_core::{Graph, NoMemory, Side, WeightedPairs};
use std::alloc::Global;

/// Makes a least side of `s` and `t` hold all or none of the stored side of each branch that leads
/// to `t`.
fn gather(side: &mut Side, branches: &[Branch], t: u32)
    requires long { All (λ b. length b.side ≡ length side.old) branches.now }
    requires first { All (λ b. b.first < length side.old) branches.now }
    ensures long { length side.new ≡ length side.old }
    ensures gathered { (n s w : ℕ) (ls : List LineOf) (rep : ℕ → ℕ) → IsTurn n s t ls (length branches.now) (at branches.now) rep → IsLeastNodeCut n ls s t w side.old → IsLeastNodeCut n ls s t w side.new × Follows n t (length branches.now) (at branches.now) side.new }
{
    for branch in branches {
        if branch.second == t {
            if side.has(branch.first) {
                side.join(&branch.side);
            } else {
                side.minus(&branch.side);
            }
        }
    }
}

/// A turn: finds a least cut of `s` and of the node `t` that represents it, and leads the branches
/// and nodes on to `s` that lie in it.
fn turn_to(
    cuts: &mut NodeCuts,
    branches: &mut [Branch],
    reps: &mut [u32],
    s: u32,
    t: u32,
    side: &mut Side,
) -> u64
    requires nodes { length cuts.old.graph.now.names ≡ length reps.old }
    requires next { s < length reps.old }
    requires grown { IsGrown (length reps.old) s cuts.old.graph.now.lines (length branches.old) (at branches.old) (slice_index reps.old) }
    requires rep { slice_index reps.old s ≡ t }
    requires long { length side.old ≡ length reps.old }
    ensures graph { cuts.new.graph.now ≡ cuts.old.graph.now }
    ensures grown { (b : ℕ → BranchOf) → ((j : ℕ) → j < length branches.old → b j ≡ at branches.new j) → b (length branches.old) ≡ record { first = s; second = t; weight = result; side = side.new } → IsGrown (length reps.old) (s + 1) cuts.old.graph.now.lines (length branches.old + 1) b (slice_index reps.new) }
{
    cuts.graph.known();
    let weight = cuts.least_cut(s, t, side);
    turn_branches(branches, t);
    gather(side, branches, t);
    lead_on(branches, t, s, side);
    represent(reps, t, s, side);
    weight
}

/// Adds node `s` to the tree.
fn grow(
    alloc: Global,
    cuts: &mut NodeCuts,
    branches: &mut Vec<Branch>,
    reps: &mut [u32],
    s: u32,
) -> Result<(), NoMemory>
    requires nodes { length cuts.old.graph.now.names ≡ length reps.old }
    requires next { s < length reps.old }
    requires grown { IsGrown (length reps.old) s cuts.old.graph.now.lines (length branches.old.items) (at branches.old.items) (slice_index reps.old) }
    ensures graph { cuts.new.graph.now ≡ cuts.old.graph.now }
    ensures grown { OnOk result (IsGrown (length reps.old) (s + 1) cuts.old.graph.now.lines (length branches.new.items) (at branches.new.items) (slice_index reps.new)) }
{
    cuts.graph.known();
    let mut side = Side::empty(alloc, reps.len())?;
    let t = reps[s as usize];
    let weight = turn_to(cuts, branches, reps, s, t, &mut side);
    let branch = Branch {
        first: s,
        second: t,
        weight,
        side,
    };
    branches.push(branch)?;
    Ok(())
}

/// The pairs of the branches.
fn pairs_of(alloc: Global, branches: &[Branch]) -> Result<WeightedPairs, NoMemory>
    ensures { IfOk result (λ pairs. pairs ≡ map pair_of branches.now) }
{
    let mut pairs = WeightedPairs::new(alloc);
    for branch in branches {
        pairs.push((branch.first, branch.second, branch.weight))?;
    }
    Ok(pairs)
}

/// A cut tree of an undirected graph (Gomory and Hu), by n - 1 flows and without contraction.
pub fn cut_tree(alloc: Global, graph: &Graph) -> Result<WeightedPairs, NoMemory>
    requires { graph.now.kind ≡ Undirected }
    ensures { IfOk result (IsCutTree graph.now) }
{
    graph.known();
    let n = graph.node_count();
    let mut cuts = NodeCuts::new(alloc, graph)?;
    let mut reps = vec![in alloc; 0u32; n]?;
    let mut branches = Vec::with_capacity(alloc, n)?;
    for s in 1..n as u32 {
        grow(alloc, &mut cuts, &mut branches, &mut reps, s)?;
    }
    pairs_of(alloc, &branches)
}
