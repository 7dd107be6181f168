//! Trials, and what their commands answer on the same graphs.

use crate::run::{answer, joined, same};
use connect_gen::make;
use graph_core::Kind;
use graph_text::write_graph;
use std::alloc::Global;
use std::process::Abort;
use std::test::Fail;

// The words of a trial and its line. Two nodes have seven parallel lines.
const SMALL: [(&str, &[u8]); 5] = [
    ("trial trees 2 0", b"value 7\n"),
    ("trial flow 2 9", b"value 7\n"),
    ("trial augment 2 5", b"value 1\n"),
    ("trial augment-arcs 2 5", b"value 4\n"),
    ("trial dijoin 2 5", b"value 1\n"),
];

pub fn are_told(rt: &impl Abort, alloc: Global, rows: &[(&str, &[u8])]) -> Result<(), Fail> {
    for (words, line) in rows {
        let (written, status) = answer(alloc, words, b"")?;
        same(rt, &(written.as_slice(), status), &(*line, 0), words);
    }
    Ok(())
}

#[test]
fn trials_of_two_nodes(rt: HostRuntime) -> Result<(), Fail> {
    are_told(&rt, rt.alloc(), &SMALL)
}

/// A command on the graph that is made from 40 nodes and the number 7, and the line that its trial writes. The line of a value
/// stands in the certificate, too.
#[derive(Clone, Copy)]
struct Forty<'a> {
    trial: &'a str,
    line: &'a [u8],
    kind: Kind,
    words: &'a str,
    start: &'a [u8],
}

fn is_solved(rt: &impl Abort, alloc: Global, row: &Forty<'_>) -> Result<(), Fail> {
    let (written, status) = answer(alloc, row.trial, b"")?;
    same(
        rt,
        &(written.as_slice(), status),
        &(row.line, 0),
        &row.trial,
    );
    let graph = make(alloc, row.kind, 40, 7)?;
    let text = write_graph(alloc, &graph)?;
    is_accepted(rt, alloc, row.words, &text, row.start)
}

/// Asserts that the certificate begins so behind its command's line, and is accepted.
pub fn is_accepted(
    rt: &impl Abort,
    alloc: Global,
    words: &str,
    text: &[u8],
    start: &[u8],
) -> Result<(), Fail> {
    let front = format!(in alloc; "certificate 1\ncommand {words}\n")?;
    let front = joined(alloc, front.as_bytes(), start)?;
    let (certificate, status) = answer(alloc, words, text)?;
    let begins = certificate.starts_with(&front);
    same(rt, &(begins, status), &(true, 0), &words);
    let (written, status) = answer(alloc, "check", &joined(alloc, text, &certificate)?)?;
    let want = (b"accepted\n".as_slice(), 0);
    same(rt, &(written.as_slice(), status), &want, &words);
    Ok(())
}

#[test]
fn flow_of_forty_nodes(rt: HostRuntime) -> Result<(), Fail> {
    let row = Forty {
        trial: "trial flow 40 7",
        line: b"value 8\n",
        kind: Kind::Undirected,
        words: "flow n1 n40",
        start: b"value 8\npath ",
    };
    is_solved(&rt, rt.alloc(), &row)
}

#[test]
fn augment_of_forty_nodes(rt: HostRuntime) -> Result<(), Fail> {
    let row = Forty {
        trial: "trial augment 40 7",
        line: b"value 22\n",
        kind: Kind::Undirected,
        words: "augment 8",
        start: b"value 22\nedge ",
    };
    is_solved(&rt, rt.alloc(), &row)
}

#[test]
fn augment_arcs_of_forty_nodes(rt: HostRuntime) -> Result<(), Fail> {
    let row = Forty {
        trial: "trial augment-arcs 40 7",
        line: b"value 58\n",
        kind: Kind::Directed,
        words: "augment-arcs 4",
        start: b"value 58\narc ",
    };
    is_solved(&rt, rt.alloc(), &row)
}

#[test]
fn arborescences_of_forty_nodes(rt: HostRuntime) -> Result<(), Fail> {
    let row = Forty {
        trial: "trial arborescences 40 7",
        line: b"value 1\n",
        kind: Kind::Directed,
        words: "arborescences n1",
        start: b"value 1\npart ",
    };
    is_solved(&rt, rt.alloc(), &row)
}

#[test]
fn trees_of_forty_nodes(rt: HostRuntime) -> Result<(), Fail> {
    let row = Forty {
        trial: "trial trees 40 7",
        line: b"value 3\n",
        kind: Kind::Undirected,
        words: "trees",
        start: b"value 3\npart ",
    };
    is_solved(&rt, rt.alloc(), &row)
}

#[test]
fn forests_of_forty_nodes(rt: HostRuntime) -> Result<(), Fail> {
    let row = Forty {
        trial: "trial forests 40 7",
        line: b"value 5\n",
        kind: Kind::Undirected,
        words: "forests",
        start: b"value 5\npart ",
    };
    is_solved(&rt, rt.alloc(), &row)
}

#[test]
fn orientation_of_forty_nodes(rt: HostRuntime) -> Result<(), Fail> {
    let row = Forty {
        trial: "trial orient 40 7",
        line: b"done\n",
        kind: Kind::Undirected,
        words: "orient 1",
        start: b"arc ",
    };
    is_solved(&rt, rt.alloc(), &row)
}

#[test]
fn dijoin_of_forty_nodes(rt: HostRuntime) -> Result<(), Fail> {
    let row = Forty {
        trial: "trial dijoin 40 7",
        line: b"value 6\n",
        kind: Kind::Directed,
        words: "dijoin",
        start: b"value 6\njoin ",
    };
    is_solved(&rt, rt.alloc(), &row)
}

/// A ring of so many nodes.
fn ring(alloc: Global, nodes: u32) -> Result<Vec<u8>, Fail> {
    let mut text = Vec::from_slice(alloc, b"graph undirected\n")?;
    for v in 0..nodes {
        text.extend_from_slice(format!(in alloc; "node n{v}\n")?.as_bytes())?;
    }
    for v in 0..nodes {
        text.extend_from_slice(format!(in alloc; "edge n{v} n{}\n", (v + 1) % nodes)?.as_bytes())?;
    }
    text.extend_from_slice(b"end\n")?;
    Ok(text)
}

/// How many lines of the text end so.
fn lines_with_end(text: &[u8], end: &[u8]) -> usize {
    text.split(|byte| *byte == b'\n')
        .filter(|line| line.ends_with(end))
        .count()
}

#[test]
fn cut_tree_of_a_ring_of_forty_nodes(rt: HostRuntime) -> Result<(), Fail> {
    let text = ring(rt.alloc(), 40)?;
    is_accepted(&rt, rt.alloc(), "cuttree", &text, b"tree ")?;
    let (certificate, _) = answer(rt.alloc(), "cuttree", &text)?;
    same(&rt, &lines_with_end(&certificate, b" 2"), &39, &"cuttree");
    Ok(())
}

// Graphs on which a solver that looks for one walk at a time would be slow.
#[test]
fn augment_of_64_nodes(rt: HostRuntime) -> Result<(), Fail> {
    are_told(&rt, rt.alloc(), &[("trial augment 64 3", b"value 32\n")])
}

#[test]
fn augment_arcs_of_48_nodes(rt: HostRuntime) -> Result<(), Fail> {
    are_told(
        &rt,
        rt.alloc(),
        &[("trial augment-arcs 48 3", b"value 60\n")],
    )
}
