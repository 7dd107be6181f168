//! Answers on 128 nodes, the most that a text may have: none of them is want of memory, which no contract can rule out.

use crate::trials::{are_told, is_accepted};
use graph_core::Kind;
use std::alloc::{AllocError, Global};
use std::process::Abort;
use std::test::Fail;

/// The nodes n0 to n127, a line from each to the next one, and a line from the node with the number `last` to n0.
fn ring_with_tail(alloc: Global, kind: Kind, last: u32) -> Result<Vec<u8>, AllocError> {
    let (word, line) = match kind {
        Kind::Undirected => ("undirected", "edge"),
        Kind::Directed => ("directed", "arc"),
    };
    let mut text = Vec::from_slice(alloc, format!(in alloc; "graph {word}\n")?.as_bytes())?;
    for v in 0..128 {
        text.extend_from_slice(format!(in alloc; "node n{v}\n")?.as_bytes())?;
    }
    for v in 0..127 {
        text.extend_from_slice(format!(in alloc; "{line} n{v} n{}\n", v + 1)?.as_bytes())?;
    }
    text.extend_from_slice(format!(in alloc; "{line} n{last} n0\nend\n")?.as_bytes())?;
    Ok(text)
}

// A command, the graph on which it is asked, and how the answer begins behind the command's line.
type Row<'a> = (&'a str, Kind, u32, &'a [u8]);

// Node n127 hangs on the ring of the others by one line, but in the orientation.
const EDGES: [Row<'static>; 6] = [
    ("flow n0 n1", Kind::Undirected, 126, b"value 2\npath "),
    ("cuttree", Kind::Undirected, 126, b"tree "),
    ("trees", Kind::Undirected, 126, b"value 1\npart "),
    ("forests", Kind::Undirected, 126, b"value 2\npart "),
    ("augment 2", Kind::Undirected, 126, b"value 1\nedge "),
    ("orient 1", Kind::Undirected, 127, b"arc "),
];

const ARCS: [Row<'static>; 3] = [
    ("arborescences n0", Kind::Directed, 126, b"value 1\npart "),
    ("augment-arcs 1", Kind::Directed, 126, b"value 1\narc n127 "),
    ("dijoin", Kind::Directed, 126, b"value 1\njoin 127\n"),
];

fn are_answered(rt: &impl Abort, alloc: Global, rows: &[Row<'_>]) -> Result<(), Fail> {
    for (words, kind, last, start) in rows {
        let text = ring_with_tail(alloc, *kind, *last)?;
        is_accepted(rt, alloc, words, &text, start)?;
    }
    Ok(())
}

#[test]
fn memory_is_enough_for_the_most_nodes_with_edges(rt: HostRuntime) -> Result<(), Fail> {
    are_answered(&rt, rt.alloc(), &EDGES)
}

#[test]
fn memory_is_enough_for_the_most_nodes_with_arcs(rt: HostRuntime) -> Result<(), Fail> {
    are_answered(&rt, rt.alloc(), &ARCS)
}

// The graph is made of the number, and the value was found by another program.
#[test]
fn memory_is_enough_for_a_trial_of_the_most_nodes(rt: HostRuntime) -> Result<(), Fail> {
    are_told(&rt, rt.alloc(), &[("trial flow 128 3", b"value 7\n")])
}
