use crate::ask::Ask;
use graph_core::{Heads, NumberRows, Numbers, Pairs, Side, Sides, WeightedPairs};

/// Whether the arcs that enter the sides of a family are counted, or those that leave them.
#[derive(Clone, Copy, Debug, PartialEq, Eq)]
pub enum Way {
    Entering,
    Leaving,
}

/// Sides of a digraph, and which arcs of theirs are counted.
#[derive(Debug, Drop)]
pub struct Family {
    pub way: Way,
    pub sides: Sides,
}

/// What bounds the number of forests from below: nothing, or a side with many edges inside.
#[derive(Debug, Drop)]
pub enum ForestDual {
    Nothing,
    Induced(Side),
}

/// What bounds the number of parts: arborescences by a cut, trees by a partition, forests by a side or by nothing.
#[derive(Debug, Drop)]
pub enum PartsDual {
    Cut(Side),
    Partition(Sides),
    Induced(Side),
    Nothing,
}

/// An object with its value and its dual, by what was asked; or the side that forbids every object.
#[derive(Debug, Drop)]
pub enum Body {
    /// The pairs of a cut tree, each with the value of its cut.
    Tree(WeightedPairs),
    /// For each edge whether it goes from its first end to its second.
    Turned(Heads),
    Walks {
        value: u64,
        rows: NumberRows,
        cut: Side,
    },
    Edges {
        value: u64,
        pairs: Pairs,
        sides: Sides,
    },
    Arcs {
        value: u64,
        pairs: Pairs,
        way: Way,
        sides: Sides,
    },
    Parts {
        value: u64,
        rows: NumberRows,
        dual: PartsDual,
    },
    Join {
        value: u64,
        numbers: Numbers,
        sides: Sides,
    },
    Never(Side),
}

/// A certificate: what is asked, and what answers it and shows that no answer is better.
#[derive(Debug, Drop)]
pub struct Cert {
    pub ask: Ask,
    pub body: Body,
}
