ghost use Rattle.std.specs.Prelude.{◌≡◌, ℕ, ◌+◌, ◌<◌, ◌≤◌, ◌↔◌, All, length, IsTrue, IfOk};
ghost use Rattle.graph_core.specs.declared.graph.Kind.TheVariants.{Undirected};
ghost use Rattle.problem_defs.specs.CutTree.{IsSpanningTree, IsLeastCut, AreLeastCuts};
ghost use Rattle.problem_defs.specs.Claims.{claims};
ghost use Rattle.problem_defs.specs.declared.ask.Ask.TheVariants as asks;
ghost use Rattle.problem_defs.specs.declared.cert.Body.TheVariants as bodies;
ghost use Rattle.certificate_checker.specs.FirstLack.{FirstLack};
ghost use Rattle.graph_core.specs.Pairs.{pair_at, AreIn};

use crate::reach::reach;
use crate::rejection::Rejection;
use flow_cuts::NodeCuts;
use graph_core::{Graph, NoMemory, Side, WeightedPairs};
use std::alloc::Global;

/// The cuts of a graph, and a side that is filled anew for each pair.
#[derive(Drop)]
struct Cuts<'a> {
    cuts: NodeCuts<'a>,
    side: Side,
    ghost kind: { cuts.graph.now.kind ≡ Undirected },
    ghost side_long: { length side ≡ length cuts.graph.now.names },
}

impl<'a> Cuts<'a> {
    fn new(alloc: Global, graph: &'a Graph) -> Result<Cuts<'a>, NoMemory>
        requires { graph.now.kind ≡ Undirected }
        ensures { IfOk result (λ cuts. cuts.cuts.graph.now ≡ graph.now) }
    {
        let cuts = NodeCuts::new(alloc, graph)?;
        let side = Side::empty(alloc, graph.node_count())?;
        Ok(Cuts { cuts, side })
    }

    /// Whether the pairs are a spanning tree: by the others, no pair's first node reaches its second.
    fn is_tree(&mut self, pairs: &[(u32, u32, u64)]) -> bool
        requires nodes { AreIn (length self.old.cuts.graph.now.names) pairs.now }
        ensures graph { self.new.cuts.graph.now ≡ self.old.cuts.graph.now }
        ensures tree { IsTrue result ↔ IsSpanningTree self.old.cuts.graph.now pairs.now }
    {
        self.cuts.graph.known();
        if pairs.len() + 1 != self.cuts.graph.node_count() {
            return false;
        }
        for j in 0..pairs.len() {
            reach(&mut self.side, pairs, j);
            if self.side.has(pairs[j].1) {
                return false;
            }
        }
        true
    }

    /// Whether pair `j` of a tree is a least cut of its two nodes.
    fn is_right(&mut self, pairs: &[(u32, u32, u64)], j: usize) -> bool
        requires nodes { AreIn (length self.old.cuts.graph.now.names) pairs.now }
        requires tree { IsSpanningTree self.old.cuts.graph.now pairs.now }
        requires j { j < length pairs.now }
        ensures graph { self.new.cuts.graph.now ≡ self.old.cuts.graph.now }
        ensures least { IsTrue result ↔ IsLeastCut self.old.cuts.graph.now pairs.now (pair_at pairs.now j).0 (pair_at pairs.now j).1 (pair_at pairs.now j).2 }
    {
        let (u, v, weight) = pairs[j];
        reach(&mut self.side, pairs, j);
        if self.cuts.graph.degree(&self.side) != weight {
            return false;
        }
        self.cuts.is_least(u, v, weight)
    }

    /// Whether each pair of a tree is a least cut of its two nodes.
    fn are_right(&mut self, pairs: &[(u32, u32, u64)]) -> bool
        requires nodes { AreIn (length self.old.cuts.graph.now.names) pairs.now }
        requires tree { IsSpanningTree self.old.cuts.graph.now pairs.now }
        ensures graph { self.new.cuts.graph.now ≡ self.old.cuts.graph.now }
        ensures least { IsTrue result ↔ AreLeastCuts self.old.cuts.graph.now pairs.now }
    {
        for j in 0..pairs.len() {
            if !self.is_right(pairs, j) {
                return false;
            }
        }
        true
    }

    /// Judges the pairs of a cut tree.
    fn judge(&mut self, pairs: &[(u32, u32, u64)]) -> Result<(), Rejection>
        requires { AreIn (length self.old.cuts.graph.now.names) pairs.now }
        ensures { FirstLack (claims self.old.cuts.graph.now asks.CutTree (bodies.Tree pairs.now)) result }
    {
        if !self.is_tree(pairs) {
            return Err(Rejection::Infeasible);
        }
        if !self.are_right(pairs) {
            return Err(Rejection::BadDual);
        }
        Ok(())
    }
}

/// Judges the pairs of a cut tree. Their order means nothing.
pub fn judge_cut_tree(alloc: Global, graph: &Graph, pairs: &WeightedPairs) -> Result<(), Rejection>
    requires kind { graph.now.kind ≡ Undirected }
    requires nodes { AreIn (length graph.now.names) pairs.now }
    ensures { FirstLack (claims graph.now asks.CutTree (bodies.Tree pairs.now)) result }
{
    let Ok(mut cuts) = Cuts::new(alloc, graph) else {
        return Err(Rejection::NoMemory);
    };
    cuts.judge(pairs.as_slice())
}
