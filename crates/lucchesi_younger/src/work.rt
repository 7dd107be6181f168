ghost use Rattle.lucchesi_younger.specs.Kept.{IsArc};

use graph_core::{Counts, Graph, Items, Line, Numbers, Side, Sides};

/// Where the work stands: a dijoin, the cost of each arc so far, and a potential of each node.
#[derive(Drop)]
pub(crate) struct Work {
    pub(crate) join: Numbers,
    pub(crate) costs: Counts,
    pub(crate) potential: Counts,
}

/// The work where the cost of one arc of the dijoin was raised: that arc is late, since it rises by one less.
#[derive(Drop)]
pub(crate) struct Task<'a> {
    pub(crate) graph: &'a Graph,
    pub(crate) work: &'a Work,
    pub(crate) late: usize,
    pub(crate) line: Line,
    ghost arc: { IsArc graph.now.lines late line },
}

/// How the potential of a node forces that of another: by an arc that would be taken, by an arc that would
/// be left, or by a jump.
#[derive(Clone, Copy)]
pub(crate) enum By {
    Taken(u32),
    Left(u32),
    Jumped,
}

/// A step between two nodes: where the potential of the first rises, that of the second must rise too.
#[derive(Clone, Copy)]
pub(crate) struct Step {
    pub(crate) by: By,
    pub(crate) from: u32,
    pub(crate) to: u32,
}

/// A step by which the search came to a node, and the place of the visit that it came from.
#[derive(Clone, Copy)]
pub(crate) struct Visit {
    pub(crate) step: Step,
    pub(crate) back: usize,
}

/// What a raised potential forces: steps from the head of the late arc to its tail, the last one first,
/// or the nodes that are forced with the head, where the tail isn't.
#[derive(Drop)]
pub(crate) enum Forced {
    Way(Items<Step>),
    Shut(Side),
}

/// A least dijoin, and closed sides that show that there is no cheaper one.
#[derive(Drop)]
pub(crate) struct Solved {
    pub(crate) join: Numbers,
    pub(crate) sides: Sides,
}
