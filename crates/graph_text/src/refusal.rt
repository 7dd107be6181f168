use thiserror::Error;

/// Why a line is no line of a graph text.
#[derive(Clone, Copy, Debug, PartialEq, Eq, Error)]
pub enum Why {
    #[error("the text does not begin with `graph undirected` or `graph directed`")]
    NoHeader,
    /// Also a second header, and any line behind the end of a text that has to stand alone.
    #[error("the line is no node, edge, arc or end")]
    BadLine,
    #[error("a name has to be 1 to 32 letters, digits, `_`, `.` or `-`")]
    BadName,
    #[error("a number has to be a decimal, of a node 0 to 8192 and of an arc's cost 0 to 100")]
    BadNumber,
    #[error("a node has this name already")]
    TwiceNode,
    #[error("no node has this name yet")]
    UnknownNode,
    #[error("the two ends are one node")]
    Loop,
    #[error("an undirected graph has edges, a directed graph has arcs")]
    WrongKind,
    #[error("the graph has no node")]
    NoNode,
    #[error("the text has no end line")]
    NoEnd,
    #[error("the graph has more than 128 nodes")]
    ManyNodes,
    #[error("the graph has more than 2048 edges or arcs")]
    ManyLines,
    #[error("the numbers of the nodes add up to more than 65536")]
    ManyNumbers,
    #[error("the costs of the arcs add up to more than 4000")]
    ManyCosts,
}

/// Why no graph was read. Lines are counted from 1.
#[derive(Clone, Copy, Debug, PartialEq, Eq, Error)]
pub enum GraphRefusal {
    #[error("line {line}: {why}")]
    Fault { line: usize, why: Why },
    #[error("no memory is left")]
    NoMemory,
}
