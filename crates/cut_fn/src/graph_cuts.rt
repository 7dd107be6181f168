ghost use Rattle.std.specs.Prelude.{◌≡◌, length};
ghost use Rattle.graph_core.specs.Lines.{degree, entering, leaving};
ghost use Rattle.graph_core.proofs.CutLaws.{degree_meets, entering_meets, leaving_meets};
ghost use Rattle.cut_fn.specs.EdgeLaws.{degree_bounds_differences, degree_bounds_three_sides};

use crate::function::{CutFn, Symmetric};
use graph_core::{Graph, Side};
use std::marker::Model;

/// d: how many lines have exactly one end in the side.
#[derive(Debug, Drop)]
pub struct EdgeCut<'a> {
    graph: &'a Graph,
}

impl<'a> Model for EdgeCut<'a> {
    ghost use Rattle.graph_core.specs.Graph.{GraphValue};

    ghost Value = { GraphValue };

    ghost view = { λ f. f.graph.now };
}

impl<'a> EdgeCut<'a> {
    /// d of this graph.
    pub fn new(graph: &'a Graph) -> EdgeCut<'a>
        ensures { result ≡ graph.now }
    {
        EdgeCut { graph }
    }
}

impl CutFn for EdgeCut<'_> {
    ghost nodes = { λ f. length f.names };

    ghost cut = { λ f X. degree X f.lines };

    fn size(&self) -> usize {
        self.graph.known();
        self.graph.node_count()
    }

    fn value(&self, side: &Side) -> u64 {
        self.graph.degree(side)
    }

    ghost submodular = { λ f X Y x y. degree_meets f.lines X Y x y };
}

impl Symmetric for EdgeCut<'_> {
    ghost weight_of = { λ _ _. 0 };

    fn weight(&self, _v: u32) -> u64 {
        0 // no line leads to a node outside the graph
    }

    ghost differences = { λ f. degree_bounds_differences (length f.names) f.lines };

    ghost three_sides = { λ f. degree_bounds_three_sides (length f.names) f.lines };
}

/// ρ: how many lines have the head alone in the side.
#[derive(Debug, Drop)]
pub struct EnterCut<'a> {
    graph: &'a Graph,
}

impl<'a> Model for EnterCut<'a> {
    ghost use Rattle.graph_core.specs.Graph.{GraphValue};

    ghost Value = { GraphValue };

    ghost view = { λ f. f.graph.now };
}

impl<'a> EnterCut<'a> {
    /// ρ of this graph.
    pub fn new(graph: &'a Graph) -> EnterCut<'a>
        ensures { result ≡ graph.now }
    {
        EnterCut { graph }
    }
}

impl CutFn for EnterCut<'_> {
    ghost nodes = { λ f. length f.names };

    ghost cut = { λ f X. entering X f.lines };

    fn size(&self) -> usize {
        self.graph.known();
        self.graph.node_count()
    }

    fn value(&self, side: &Side) -> u64 {
        self.graph.entering(side)
    }

    ghost submodular = { λ f X Y x y. entering_meets f.lines X Y x y };
}

/// δ: how many lines have the tail alone in the side.
#[derive(Debug, Drop)]
pub struct LeaveCut<'a> {
    graph: &'a Graph,
}

impl<'a> Model for LeaveCut<'a> {
    ghost use Rattle.graph_core.specs.Graph.{GraphValue};

    ghost Value = { GraphValue };

    ghost view = { λ f. f.graph.now };
}

impl<'a> LeaveCut<'a> {
    /// δ of this graph.
    pub fn new(graph: &'a Graph) -> LeaveCut<'a>
        ensures { result ≡ graph.now }
    {
        LeaveCut { graph }
    }
}

impl CutFn for LeaveCut<'_> {
    ghost nodes = { λ f. length f.names };

    ghost cut = { λ f X. leaving X f.lines };

    fn size(&self) -> usize {
        self.graph.known();
        self.graph.node_count()
    }

    fn value(&self, side: &Side) -> u64 {
        self.graph.leaving(side)
    }

    ghost submodular = { λ f X Y x y. leaving_meets f.lines X Y x y };
}
