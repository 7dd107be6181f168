//! The limits of a graph's text.

/// The most nodes.
pub(crate) const MOST_NODES: usize = 128;

/// The most edges or arcs.
pub(crate) const MOST_LINES: usize = 2048;

/// The greatest number of a node.
pub(crate) const MOST_NUMBER: u64 = 8192;

/// The most that the numbers of all nodes add up to.
pub(crate) const MOST_NUMBERS: u64 = 65536;

/// The greatest cost of an arc.
pub(crate) const MOST_COST: u64 = 100;

/// The most that all arcs cost.
pub(crate) const MOST_COSTS: u64 = 4000;
