use crate::examples::{ARCS, INTO_ONE, ONE_NODE};
use crate::run::{answer, joined, same};
use std::alloc::Global;
use std::process::Abort;
use std::test::Fail;
use test_graphs::{BACKBONE, COMPLETE, EDGE, K4, OUT_STAR, PATH, SQUARE, TRIANGLE, TWO_ALONE};

const PARALLEL: &[u8] = b"graph undirected\nnode a\nnode b\nedge a b\nedge a b\nedge a b\nend\n";

// Two edges that share no node.
const APART: &[u8] = b"graph undirected\nnode a\nnode b\nnode c\nnode d\nedge a b\nedge c d\nend\n";

// Two threefold edges and a bridge between them; threefold edges along a path; a threefold edge in a ring.
const BRIDGE: &[u8] =
    b"graph undirected\nnode a\nnode b\nnode c\nnode d\nedge a b\nedge a b\nedge a b\nedge c d\nedge c d\nedge c d\nedge b c\nend\n";

const THICK: &[u8] =
    b"graph undirected\nnode a\nnode b\nnode c\nedge a b\nedge a b\nedge a b\nedge b c\nedge b c\nedge b c\nend\n";

const RING: &[u8] =
    b"graph undirected\nnode a\nnode b\nnode c\nnode d\nedge a b\nedge a b\nedge a b\nedge b c\nedge c d\nedge d a\nend\n";

const UNREACHED: &[u8] = b"graph directed\nnode a\nnode b\nnode c\narc a b\narc c b\nend\n";

const THREE_ALONE: &[u8] = b"graph undirected\nnode a\nnode b\nnode c\nend\n";

const FOUR_ALONE: &[u8] = b"graph undirected\nnode a\nnode b\nnode c\nnode d\nend\n";

/// The complete graph on five nodes.
const K5: &[u8] =
    b"graph undirected\nnode a\nnode b\nnode c\nnode d\nnode e\nedge a b\nedge a c\nedge a d\nedge a e\nedge b c\nedge b d\nedge b e\nedge c d\nedge c e\nedge d e\nend\n";

// A command, a graph and how the answer begins behind the command's line.
type Row<'a> = (&'a str, &'a [u8], &'a [u8]);

const SOLVED: [Row<'static>; 26] = [
    ("flow s1 s4", BACKBONE, b"value 3\npath "),
    ("cuttree", BACKBONE, b"tree "),
    ("flow a d", SQUARE, b"value 2\npath "),
    ("flow a b", PARALLEL, b"value 3\npath "),
    ("flow a c", ARCS, b"value 2\npath "),
    ("flow c a", ARCS, b"value 1\npath 5 2\ndual cut\n"),
    ("cuttree", SQUARE, b""),
    ("cuttree", PATH, b""),
    ("flow b c", SQUARE, b""),
    ("flow a c", PATH, b""),
    ("arborescences a", COMPLETE, b"value 2\npart "),
    ("arborescences c", COMPLETE, b"value 2\npart "),
    (
        "arborescences a",
        UNREACHED,
        b"value 0\ndual cut\nset c\nend\n",
    ),
    ("trees", K4, b"value 2\npart "),
    ("trees", TRIANGLE, b"value 1\npart "),
    ("trees", PARALLEL, b"value 3\npart "),
    ("trees", APART, b"value 0\ndual partition\nset "),
    ("trees", BRIDGE, b"value 1\npart "),
    ("trees", THICK, b"value 3\npart "),
    ("trees", RING, b"value 1\npart "),
    ("forests", BRIDGE, b"value 3\npart "),
    ("forests", THICK, b"value 3\npart "),
    ("forests", RING, b"value 3\npart "),
    ("forests", K4, b"value 2\npart "),
    ("forests", PARALLEL, b"value 3\npart "),
    ("forests", APART, b"value 1\npart "),
];

// New edges, new arcs and orientations.
const CONNECTED: [Row<'static>; 17] = [
    ("augment 2", PATH, b"value 1\nedge "),
    ("augment 3", THREE_ALONE, b"value 5\nedge "),
    ("augment 1", FOUR_ALONE, b"value 3\nedge "),
    ("augment 1", APART, b"value 1\nedge "),
    ("augment 3", BACKBONE, b"value 2\nedge "),
    ("augment 2", TRIANGLE, b"value 0\ndual subpartition\nend\n"),
    (
        "augment 1",
        ONE_NODE,
        b"value 0\ndual components\nset a\nend\n",
    ),
    ("augment-arcs 1", OUT_STAR, b"value 2\narc "),
    ("augment-arcs 2", TWO_ALONE, b"value 4\narc "),
    ("augment-arcs 2", COMPLETE, b"value 0\ndual "),
    ("orient 2", K5, b"arc "),
    ("orient 1", K5, b"arc "),
    // Each degree is odd.
    ("orient 1", K4, b"arc "),
    ("orient 1", TRIANGLE, b"arc "),
    ("orient 1", PARALLEL, b"arc "),
    ("orient 1", BACKBONE, b"arc "),
    ("orient 3", ONE_NODE, b"end\n"),
];

/// Two arcs with costs on a path.
const COSTLY: &[u8] =
    b"graph directed\nnode a\nnode b\nnode c\narc a b cost 2\narc b c cost 3\nend\n";

// The sets of a dual may be others.
const DIJOINS: [Row<'static>; 4] = [
    ("dijoin", INTO_ONE, b"value 2\njoin 1 2\ndual dicuts\nset "),
    ("dijoin", COSTLY, b"value 5\njoin 1 2\ndual dicuts\nset "),
    ("dijoin", OUT_STAR, b"value 2\njoin 1 2\ndual dicuts\nset "),
    ("dijoin", COMPLETE, b"value 0\njoin\ndual dicuts\nend\n"),
];

// Graphs with a side of too few edges, so that no orientation enters and leaves each side; and one with a side that no arc
// enters or leaves.
const DENIED: [Row<'static>; 5] = [
    ("orient 1", EDGE, b"impossible\ndual cut\nset "),
    ("orient 1", PATH, b"impossible\ndual cut\nset "),
    ("orient 2", K4, b"impossible\ndual cut\nset "),
    ("orient 2", PARALLEL, b"impossible\ndual cut\nset "),
    ("dijoin", TWO_ALONE, b"impossible\ndual dicut\nset "),
];

fn are_accepted(rt: &impl Abort, alloc: Global, rows: &[Row<'_>], number: u8) -> Result<(), Fail> {
    for (words, graph, start) in rows {
        let front = format!(in alloc; "certificate 1\ncommand {words}\n")?;
        let front = joined(alloc, front.as_bytes(), start)?;
        let (certificate, status) = answer(alloc, words, graph)?;
        let begins = certificate.starts_with(&front);
        same(rt, &(begins, status), &(true, number), words);
        let (written, status) = answer(alloc, "check", &joined(alloc, graph, &certificate)?)?;
        let want = (b"accepted\n".as_slice(), 0);
        same(rt, &(written.as_slice(), status), &want, words);
    }
    Ok(())
}

#[test]
fn answers_are_found_and_accepted(rt: HostRuntime) -> Result<(), Fail> {
    are_accepted(&rt, rt.alloc(), &SOLVED, 0)
}

#[test]
fn augmentations_and_orientations_are_found_and_accepted(rt: HostRuntime) -> Result<(), Fail> {
    are_accepted(&rt, rt.alloc(), &CONNECTED, 0)
}

#[test]
fn dijoins_are_found_and_accepted(rt: HostRuntime) -> Result<(), Fail> {
    are_accepted(&rt, rt.alloc(), &DIJOINS, 0)
}

#[test]
fn sides_that_forbid_an_answer_are_found_and_accepted(rt: HostRuntime) -> Result<(), Fail> {
    are_accepted(&rt, rt.alloc(), &DENIED, 1)
}

// A command, a graph and lines of each right answer, which may stand in another order.
const LINES: [(&str, &[u8], &[&[u8]]); 4] = [
    (
        "augment 1",
        FOUR_ALONE,
        &[
            b"dual components\n",
            b"\nset a\n",
            b"\nset b\n",
            b"\nset c\n",
            b"\nset d\n",
        ],
    ),
    (
        "augment-arcs 1",
        OUT_STAR,
        &[b"\ndual out\n", b"\nset b\n", b"\nset c\n"],
    ),
    ("augment-arcs 2", TWO_ALONE, &[b"\nset a\n", b"\nset b\n"]),
    ("orient 1", PARALLEL, &[b"\narc a b\n", b"\narc b a\n"]),
];

fn holds(text: &[u8], part: &[u8]) -> bool {
    for start in 0..text.len() {
        if text[start..].starts_with(part) {
            return true;
        }
    }
    false
}

fn hold_lines(
    rt: &impl Abort,
    alloc: Global,
    rows: &[(&str, &[u8], &[&[u8]])],
) -> Result<(), Fail> {
    for (words, graph, lines) in rows {
        let (certificate, _) = answer(alloc, words, graph)?;
        let all = lines.iter().all(|line| holds(&certificate, line));
        same(rt, &all, &true, words);
    }
    Ok(())
}

#[test]
fn lines_that_each_right_answer_has_are_written(rt: HostRuntime) -> Result<(), Fail> {
    hold_lines(&rt, rt.alloc(), &LINES)
}
