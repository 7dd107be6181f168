ghost use Rattle.std.specs.Prelude.{◌*◌, ◌≡◌, ◌+◌, ◌<◌, ◌≤◌, length, sum, slice_index};
ghost use Rattle.graph_core.specs.Limits.{line_room, side_room};
ghost use Rattle.graph_core.specs.Lines.{degree, entering, leaving};
ghost use Rattle.graph_core.specs.Side.{sum_over};
ghost use Rattle.cut_fn.specs.StarLaws.{star_meets, star_parts, star_three, star_enters, star_leaves};

use crate::function::{CutFn, Symmetric};
use graph_core::{Counts, Graph, Side};
use std::marker::Model;

/// A graph with a new node, joined to node v by `count[v]` edges.
#[derive(Debug, Drop)]
pub struct Star {
    pub graph: Graph,
    pub count: Counts,
    ghost long: { length count ≡ length graph.names },
    ghost few: { sum count ≤ line_room },
}

/// A digraph with a new node, with `into[v]` arcs to node v and `out[v]` arcs from it.
#[derive(Debug, Drop)]
pub struct ArcStar {
    pub graph: Graph,
    pub into: Counts,
    pub out: Counts,
    ghost into_long: { length into ≡ length graph.names },
    ghost into_few: { sum into ≤ line_room },
    ghost out_long: { length out ≡ length graph.names },
    ghost out_few: { sum out ≤ line_room },
}

/// The sum of all counts.
pub fn total_count(counts: &[u64]) -> u64
    requires { sum counts.now ≤ 2 * line_room }
    ensures total { result ≡ sum counts.now }
    ensures within { result ≤ 2 * line_room }
{
    let mut total: u64 = 0;
    for count in counts {
        total += *count;
    }
    total
}

/// The sum of the counts over the nodes of a side.
pub fn sum_counts(side: &Side, counts: &[u64]) -> u64
    requires long { length side.now ≡ length counts.now }
    requires nodes { length counts.now ≤ side_room }
    requires few { sum counts.now ≤ 2 * line_room }
    ensures total { result ≡ sum_over side.now (slice_index counts.now) }
    ensures within { result ≤ 2 * line_room }
{
    let mut total: u64 = 0;
    for (v, count) in counts.iter().enumerate() {
        if side.has(v as u32) {
            total += *count;
        }
    }
    total
}

/// d of a star: how many of its edges have exactly one end in a side of the graph's nodes. The new node is in no side.
#[derive(Debug, Drop)]
pub struct StarCut<'a> {
    star: &'a Star,
}

impl<'a> Model for StarCut<'a> {
    ghost use Rattle.cut_fn.specs.declared.stars.Star.{Star as StarOf};

    ghost Value = { StarOf };

    ghost view = { λ f. f.star.now };
}

impl<'a> StarCut<'a> {
    /// d of this star.
    pub fn new(star: &'a Star) -> StarCut<'a>
        ensures { result ≡ star.now }
    {
        StarCut { star }
    }
}

impl CutFn for StarCut<'_> {
    ghost nodes = { λ f. length f.graph.names };

    ghost cut = { λ f X. degree X f.graph.lines + sum_over X (slice_index f.count) };

    fn size(&self) -> usize {
        self.star.graph.known();
        self.star.graph.node_count()
    }

    fn value(&self, side: &Side) -> u64 {
        self.star.graph.known();
        self.star.graph.degree(side) + sum_counts(side, self.star.count.as_slice())
    }

    ghost submodular = { λ f. star_meets (length f.graph.names) (slice_index f.count) f.graph.lines };
}

impl Symmetric for StarCut<'_> {
    ghost weight_of = { λ f. slice_index f.count };

    fn weight(&self, v: u32) -> u64 {
        *self.star.count.item(v as usize)
    }

    ghost differences = { λ f. star_parts (length f.graph.names) (slice_index f.count) f.graph.lines };

    ghost three_sides = { λ f. star_three (length f.graph.names) (slice_index f.count) f.graph.lines };
}

/// ρ of a star: how many of its arcs enter a side of the graph's nodes, those from the new node too.
#[derive(Debug, Drop)]
pub struct StarEnter<'a> {
    star: &'a ArcStar,
}

impl<'a> Model for StarEnter<'a> {
    ghost use Rattle.cut_fn.specs.declared.stars.ArcStar.{ArcStar as ArcStarOf};

    ghost Value = { ArcStarOf };

    ghost view = { λ f. f.star.now };
}

impl<'a> StarEnter<'a> {
    /// ρ of this star.
    pub fn new(star: &'a ArcStar) -> StarEnter<'a>
        ensures { result ≡ star.now }
    {
        StarEnter { star }
    }
}

impl CutFn for StarEnter<'_> {
    ghost nodes = { λ f. length f.graph.names };

    ghost cut = { λ f X. entering X f.graph.lines + sum_over X (slice_index f.into) };

    fn size(&self) -> usize {
        self.star.graph.known();
        self.star.graph.node_count()
    }

    fn value(&self, side: &Side) -> u64 {
        self.star.graph.known();
        self.star.graph.entering(side) + sum_counts(side, self.star.into.as_slice())
    }

    ghost submodular = { λ f. star_enters (length f.graph.names) (slice_index f.into) f.graph.lines };
}

/// δ of a star: how many of its arcs leave a side of the graph's nodes, those to the new node too.
#[derive(Debug, Drop)]
pub struct StarLeave<'a> {
    star: &'a ArcStar,
}

impl<'a> Model for StarLeave<'a> {
    ghost use Rattle.cut_fn.specs.declared.stars.ArcStar.{ArcStar as ArcStarOf};

    ghost Value = { ArcStarOf };

    ghost view = { λ f. f.star.now };
}

impl<'a> StarLeave<'a> {
    /// δ of this star.
    pub fn new(star: &'a ArcStar) -> StarLeave<'a>
        ensures { result ≡ star.now }
    {
        StarLeave { star }
    }
}

impl CutFn for StarLeave<'_> {
    ghost nodes = { λ f. length f.graph.names };

    ghost cut = { λ f X. leaving X f.graph.lines + sum_over X (slice_index f.out) };

    fn size(&self) -> usize {
        self.star.graph.known();
        self.star.graph.node_count()
    }

    fn value(&self, side: &Side) -> u64 {
        self.star.graph.known();
        self.star.graph.leaving(side) + sum_counts(side, self.star.out.as_slice())
    }

    ghost submodular = { λ f. star_leaves (length f.graph.names) (slice_index f.out) f.graph.lines };
}
