ghost use Rattle.std.specs.Prelude.{◌≡◌, ◌≢◌, ◌<◌, ◌↔◌, length, IsTrue, IfOk};
ghost use Rattle.graph_core.specs.declared.graph.Kind.TheVariants.{Undirected};
ghost use Rattle.flow_cuts.specs.GraphArcs.{arcs_of};
ghost use Rattle.flow_cuts.specs.NodeCuts.{IsLeastNodeCut, NoneIsLess};

use crate::flow::Flow;
use graph_core::{Graph, NoMemory, Side};
use std::alloc::Global;

/// Least cuts between two nodes of an undirected graph, by flows over one network.
#[derive(Drop)]
pub struct NodeCuts<'a> {
    pub graph: &'a Graph,
    flow: Flow,
    inside: Side,
    outside: Side,
    ghost nodes: { flow.nodes ≡ length graph.now.names },
    ghost arcs: { flow.arcs ≡ arcs_of Undirected graph.now.lines },
    ghost inside_long: { length inside ≡ length graph.now.names },
    ghost outside_long: { length outside ≡ length graph.now.names },
}

impl<'a> NodeCuts<'a> {
    /// Makes the network of the graph. The other calls take no memory.
    pub fn new(alloc: Global, graph: &'a Graph) -> Result<NodeCuts<'a>, NoMemory>
        requires { graph.now.kind ≡ Undirected }
        ensures { IfOk result (λ cuts. cuts.graph.now ≡ graph.now) }
    {
        graph.known();
        let n = graph.node_count();
        let flow = Flow::of_graph(alloc, graph)?;
        let inside = Side::empty(alloc, n)?;
        let outside = Side::empty(alloc, n)?;
        Ok(NodeCuts {
            graph,
            flow,
            inside,
            outside,
        })
    }

    /// Writes a least cut that holds `s` and misses `t`, and gives the number of its edges.
    pub fn least_cut(&mut self, s: u32, t: u32, into: &mut Side) -> u64
        requires s { s < length self.old.graph.now.names }
        requires t { t < length self.old.graph.now.names }
        requires apart { s ≢ t }
        requires long { length into.old ≡ length self.old.graph.now.names }
        ensures graph { self.new.graph.now ≡ self.old.graph.now }
        ensures cut { IsLeastNodeCut (length self.old.graph.now.names) self.old.graph.now.lines s t result into.new }
    {
        self.graph.known();
        self.inside.hold_only(s);
        self.outside.hold_only(t);
        let stop = self.graph.line_count() as u64 + 1;
        let value = self.flow.run(&self.inside, &self.outside, stop);
        self.flow.side(into);
        value
    }

    /// Whether no cut between the two nodes has fewer edges than `weight`.
    pub fn is_least(&mut self, u: u32, v: u32, weight: u64) -> bool
        requires u { u < length self.old.graph.now.names }
        requires v { v < length self.old.graph.now.names }
        ensures graph { self.new.graph.now ≡ self.old.graph.now }
        ensures least { IsTrue result ↔ NoneIsLess (length self.old.graph.now.names) self.old.graph.now.lines u v weight }
    {
        self.graph.known();
        self.inside.hold_only(u);
        self.outside.hold_only(v);
        self.flow.run(&self.inside, &self.outside, weight) == weight
    }
}
