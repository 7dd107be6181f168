ghost use Rattle.std.specs.Prelude.{◌≡◌, ◌+◌, ◌++◌, ◌<◌, ◌≤◌, ◌↔◌, ℕ, Bool, List, length, All, IsTrue, IfOk};
ghost use Rattle.graph_core.specs.Graph.{Fits, lines_of};
ghost use Rattle.graph_core.specs.Side.{IsProper};
ghost use Rattle.graph_core.specs.declared.graph.Kind.TheVariants.{Directed};
ghost use Rattle.problem_defs.specs.Orient.{turned};
ghost use Rattle.problem_defs.specs.Shaped.{AreNodes};
ghost use Rattle.certificate_checker.specs.Copies.{cut_count, line_count, Counts, CountsMore, IsKConnected};

use crate::copies::Copies;
use flow_cuts::sparse_side;
use graph_core::{Graph, Heads, Kind, Line, NoMemory, Pairs};
use std::alloc::Global;

impl Copies {
    /// Counts an edge both ways, and an arc turned round: what then leaves a side are the edges that cross it, or the arcs
    /// that enter it.
    fn add_line(&mut self, kind: Kind, tail: u32, head: u32)
        requires tail { tail < self.old.n }
        requires head { head < self.old.n }
        ensures n { self.new.n ≡ self.old.n }
        ensures most { self.new.most ≡ self.old.most }
        ensures counted { CountsMore self.old.n self.old.most self.old.table.items self.new.table.items (λ X. line_count kind X tail head) }
    {
        match kind {
            Kind::Undirected => {
                self.add(tail, head);
                self.add(head, tail);
            }
            Kind::Directed => self.add(head, tail),
        }
    }

    pub fn add_lines(&mut self, kind: Kind, lines: &[Line])
        requires { All (Fits self.old.n) lines.now }
        ensures n { self.new.n ≡ self.old.n }
        ensures most { self.new.most ≡ self.old.most }
        ensures counted { CountsMore self.old.n self.old.most self.old.table.items self.new.table.items (λ X. cut_count kind X lines.now) }
    {
        for line in lines {
            self.add_line(kind, line.tail, line.head);
        }
    }

    fn add_pairs(&mut self, kind: Kind, pairs: &[(u32, u32)])
        requires { AreNodes self.old.n pairs.now }
        ensures n { self.new.n ≡ self.old.n }
        ensures most { self.new.most ≡ self.old.most }
        ensures counted { CountsMore self.old.n self.old.most self.old.table.items self.new.table.items (λ X. cut_count kind X (lines_of pairs.now)) }
    {
        for (tail, head) in pairs {
            self.add_line(kind, *tail, *head);
        }
    }

    /// Counts each line as it is written, or the other way round.
    fn add_turned(&mut self, lines: &[Line], heads: &[bool])
        requires fit { All (Fits self.old.n) lines.now }
        requires each { length heads.now ≡ length lines.now }
        ensures n { self.new.n ≡ self.old.n }
        ensures most { self.new.most ≡ self.old.most }
        ensures counted { CountsMore self.old.n self.old.most self.old.table.items self.new.table.items (λ X. cut_count Directed X (turned lines.now heads.now)) }
    {
        for j in 0..lines.len() {
            let line = lines[j];
            if heads[j] {
                self.add_line(Kind::Directed, line.tail, line.head);
            } else {
                self.add_line(Kind::Directed, line.head, line.tail);
            }
        }
    }

    /// Whether the limit leaves each proper side.
    pub fn is_reached(&self, alloc: Global) -> Result<bool, NoMemory>
        requires { 1 ≤ self.now.n }
        ensures { (f : List Bool → ℕ) → Counts self.now.n self.now.most self.now.table.items f → IfOk result (λ is. IsTrue is ↔ ((X : List Bool) → IsProper self.now.n X → self.now.most ≤ f X)) }
    {
        let arcs = self.arcs(alloc)?;
        let sparse = sparse_side(alloc, self.n as usize, &arcs, self.most as u64)?;
        Ok(sparse.is_none())
    }
}

/// Whether the graph is k-edge-connected or k-arc-connected with these new lines.
pub fn is_connected_with(
    alloc: Global,
    graph: &Graph,
    pairs: &Pairs,
    k: u32,
) -> Result<bool, NoMemory>
    requires { AreNodes (length graph.now.names) pairs.now }
    ensures { IfOk result (λ is. IsTrue is ↔ IsKConnected graph.now.kind k (length graph.now.names) (graph.now.lines ++ lines_of pairs.now)) }
{
    graph.known();
    let mut copies = Copies::new(alloc, graph.node_count() as u32, k)?;
    copies.add_lines(graph.kind(), graph.lines());
    copies.add_pairs(graph.kind(), pairs.as_slice());
    copies.is_reached(alloc)
}

/// Whether the digraph of the turned lines is k-arc-connected.
pub fn is_connected_turned(
    alloc: Global,
    graph: &Graph,
    heads: &Heads,
    k: u32,
) -> Result<bool, NoMemory>
    requires { length heads.now ≡ length graph.now.lines }
    ensures { IfOk result (λ is. IsTrue is ↔ IsKConnected Directed k (length graph.now.names) (turned graph.now.lines heads.now)) }
{
    graph.known();
    let mut copies = Copies::new(alloc, graph.node_count() as u32, k)?;
    copies.add_turned(graph.lines(), heads.as_slice());
    copies.is_reached(alloc)
}
