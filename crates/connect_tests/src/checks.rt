use crate::examples::{ARCS, INTO_ONE};
use crate::run::{answer, joined, same};
use std::alloc::Global;
use std::process::Abort;
use std::test::Fail;
use test_graphs::{EDGE, K4, OUT_STAR, PATH, SQUARE, TRIANGLE};

// A graph, what follows it, the answer and the exit number.
type Row<'a> = (&'a [u8], &'a [u8], &'a [u8], u8);

const CHECKS: [Row<'static>; 27] = [
    (
        SQUARE,
        b"certificate 1\ncommand flow a d\nvalue 2\npath 1 2\npath 3 4\ndual cut\nset a\nend\n",
        b"accepted\n",
        0,
    ),
    (
        SQUARE,
        b"certificate 1\ncommand flow a d\nvalue 2\npath 3 4\npath 1 2\ndual cut\nset a b c\nend\n",
        b"accepted\n",
        0,
    ),
    // The side misses the first node.
    (
        SQUARE,
        b"certificate 1\ncommand flow a d\nvalue 2\npath 1 2\npath 3 4\ndual cut\nset b\nend\n",
        b"rejected dual\n",
        2,
    ),
    // A path that leads nowhere, an empty one, and an edge in two paths.
    (
        SQUARE,
        b"certificate 1\ncommand flow a d\nvalue 2\npath 1 3\npath 3 4\ndual cut\nset a\nend\n",
        b"rejected infeasible\n",
        2,
    ),
    (
        SQUARE,
        b"certificate 1\ncommand flow a d\nvalue 2\npath\npath 3 4\ndual cut\nset b\nend\n",
        b"rejected infeasible\n",
        2,
    ),
    (
        SQUARE,
        b"certificate 1\ncommand flow a d\nvalue 2\npath 1 2\npath 1 2\ndual cut\nset a\nend\n",
        b"rejected infeasible\n",
        2,
    ),
    // One walk less than there are.
    (
        SQUARE,
        b"certificate 1\ncommand flow a d\nvalue 1\npath 1 2\ndual cut\nset a\nend\n",
        b"rejected gap\n",
        2,
    ),
    // No end line, a leading zero, nothing at all, a byte more, and a comment before.
    (
        SQUARE,
        b"certificate 1\ncommand flow a d\nvalue 2\npath 1 2\npath 3 4\ndual cut\nset a\n",
        b"rejected malformed 8\n",
        2,
    ),
    (
        SQUARE,
        b"certificate 1\ncommand flow a d\nvalue 02\npath 1 2\npath 3 4\ndual cut\nset a\nend\n",
        b"rejected malformed 3\n",
        2,
    ),
    (SQUARE, b"", b"rejected malformed 1\n", 2),
    (
        SQUARE,
        b"certificate 1\ncommand flow a d\nvalue 2\npath 1 2\npath 3 4\ndual cut\nset a\nend\n\n",
        b"rejected malformed 9\n",
        2,
    ),
    (
        SQUARE,
        b"# note\ncertificate 1\ncommand flow a d\nvalue 0\ndual cut\nset a\nend\n",
        b"rejected malformed 1\n",
        2,
    ),
    // A walk against an arc.
    (
        ARCS,
        b"certificate 1\ncommand flow c a\nvalue 1\npath 4\ndual cut\nset c\nend\n",
        b"rejected infeasible\n",
        2,
    ),
    // No side is closed.
    (
        ARCS,
        b"certificate 1\ncommand dijoin\nvalue 0\njoin\ndual dicuts\nend\n",
        b"accepted\n",
        0,
    ),
    // Dijoins of two arcs into one node.
    (
        INTO_ONE,
        b"certificate 1\ncommand dijoin\nvalue 2\njoin 2 1\ndual dicuts\nset y z\nset x y\nend\n",
        b"accepted\n",
        0,
    ),
    (
        INTO_ONE,
        b"certificate 1\ncommand dijoin\nvalue 1\njoin 1\ndual dicuts\nset y\nend\n",
        b"rejected infeasible\n",
        2,
    ),
    (
        INTO_ONE,
        b"certificate 1\ncommand dijoin\nvalue 2\njoin 1 2\ndual dicuts\nset x y\nset y\nend\n",
        b"rejected dual\n",
        2,
    ),
    (
        INTO_ONE,
        b"certificate 1\ncommand dijoin\nvalue 2\njoin 1 2\ndual dicuts\nset x y\nend\n",
        b"rejected gap\n",
        2,
    ),
    (
        INTO_ONE,
        b"certificate 1\ncommand dijoin\nimpossible\ndual dicut\nset y\nend\n",
        b"rejected dual\n",
        2,
    ),
    // Cut trees of the path.
    (
        PATH,
        b"certificate 1\ncommand cuttree\ntree a b 1\ntree b c 1\nend\n",
        b"accepted\n",
        0,
    ),
    (
        PATH,
        b"certificate 1\ncommand cuttree\ntree c b 1\ntree a b 1\nend\n",
        b"accepted\n",
        0,
    ),
    (
        PATH,
        b"certificate 1\ncommand cuttree\ntree a b 1\ntree b c 2\nend\n",
        b"rejected dual\n",
        2,
    ),
    (
        PATH,
        b"certificate 1\ncommand cuttree\ntree a b 0\ntree b c 1\nend\n",
        b"rejected dual\n",
        2,
    ),
    // The side of a and b holds c, too, and two edges leave it.
    (
        PATH,
        b"certificate 1\ncommand cuttree\ntree a b 1\ntree a c 1\nend\n",
        b"rejected dual\n",
        2,
    ),
    (
        PATH,
        b"certificate 1\ncommand cuttree\ntree a b 1\nend\n",
        b"rejected infeasible\n",
        2,
    ),
    (
        PATH,
        b"certificate 1\ncommand cuttree\ntree a b 1\ntree b a 1\nend\n",
        b"rejected infeasible\n",
        2,
    ),
    (
        PATH,
        b"certificate 1\ncommand cuttree\ntree a b 1\ntree c c 1\nend\n",
        b"rejected infeasible\n",
        2,
    ),
];

const AUGMENTED: [Row<'static>; 24] = [
    (
        PATH,
        b"certificate 1\ncommand augment 2\nvalue 1\nedge a c\ndual subpartition\nset a\nset c\nend\n",
        b"accepted\n",
        0,
    ),
    (
        PATH,
        b"certificate 1\ncommand augment 2\nvalue 1\nedge c a\ndual subpartition\nset c\nset a\nend\n",
        b"accepted\n",
        0,
    ),
    // Half of 1 is rounded up.
    (
        PATH,
        b"certificate 1\ncommand augment 2\nvalue 1\nedge a c\ndual subpartition\nset a b\nend\n",
        b"accepted\n",
        0,
    ),
    // Sides that share a node, the set of all nodes, and a set twice.
    (
        PATH,
        b"certificate 1\ncommand augment 2\nvalue 1\nedge a c\ndual subpartition\nset a b\nset b c\nend\n",
        b"rejected dual\n",
        2,
    ),
    (
        PATH,
        b"certificate 1\ncommand augment 2\nvalue 1\nedge a c\ndual subpartition\nset a b c\nend\n",
        b"rejected dual\n",
        2,
    ),
    (
        PATH,
        b"certificate 1\ncommand augment 2\nvalue 1\nedge a c\ndual subpartition\nset a\nset a\nend\n",
        b"rejected dual\n",
        2,
    ),
    // An edge too many, too few, and one between a node and itself.
    (
        PATH,
        b"certificate 1\ncommand augment 2\nvalue 2\nedge a c\nedge a c\ndual subpartition\nset a\nset c\nend\n",
        b"rejected gap\n",
        2,
    ),
    (
        PATH,
        b"certificate 1\ncommand augment 2\nvalue 0\ndual subpartition\nend\n",
        b"rejected infeasible\n",
        2,
    ),
    (
        PATH,
        b"certificate 1\ncommand augment 2\nvalue 1\nedge a a\ndual subpartition\nset a\nset c\nend\n",
        b"rejected infeasible\n",
        2,
    ),
    // No end line, nodes in another order than the graph, another dual, and a number that is too large.
    (
        PATH,
        b"certificate 1\ncommand augment 2\nvalue 1\nedge a c\ndual subpartition\nset a\nset c\n",
        b"rejected malformed 8\n",
        2,
    ),
    (
        PATH,
        b"certificate 1\ncommand augment 2\nvalue 1\nedge a c\ndual subpartition\nset c a\nset c\nend\n",
        b"rejected malformed 6\n",
        2,
    ),
    (
        PATH,
        b"certificate 1\ncommand augment 2\nvalue 1\nedge a c\ndual components\nset a\nset c\nend\n",
        b"rejected malformed 5\n",
        2,
    ),
    (
        PATH,
        b"certificate 1\ncommand augment 33\nvalue 1\nedge a c\ndual subpartition\nset a\nset c\nend\n",
        b"rejected malformed 2\n",
        2,
    ),
    // Nothing behind the graph, and an ask that doesn't suit it.
    (PATH, b"", b"rejected malformed 1\n", 2),
    (
        PATH,
        b"certificate 1\ncommand augment-arcs 1\nvalue 0\ndual in\nend\n",
        b"rejected malformed 2\n",
        2,
    ),
    // Components: the one class of the path, classes that an edge joins, and a class that misses a node.
    (
        PATH,
        b"certificate 1\ncommand augment 1\nvalue 0\ndual components\nset a b c\nend\n",
        b"accepted\n",
        0,
    ),
    (
        PATH,
        b"certificate 1\ncommand augment 1\nvalue 0\ndual components\nset a b\nset c\nend\n",
        b"rejected dual\n",
        2,
    ),
    (
        PATH,
        b"certificate 1\ncommand augment 1\nvalue 0\ndual components\nset a b\nend\n",
        b"rejected dual\n",
        2,
    ),
    // New arcs: sides that too few leave count for `out`, and those that too few enter for `in`.
    (
        OUT_STAR,
        b"certificate 1\ncommand augment-arcs 1\nvalue 2\narc b a\narc c a\ndual out\nset b\nset c\nend\n",
        b"accepted\n",
        0,
    ),
    (
        OUT_STAR,
        b"certificate 1\ncommand augment-arcs 1\nvalue 2\narc b c\narc c a\ndual out\nset c\nset b\nend\n",
        b"accepted\n",
        0,
    ),
    (
        OUT_STAR,
        b"certificate 1\ncommand augment-arcs 1\nvalue 2\narc b a\narc c a\ndual in\nset b\nset c\nend\n",
        b"rejected gap\n",
        2,
    ),
    (
        OUT_STAR,
        b"certificate 1\ncommand augment-arcs 1\nvalue 2\narc b a\narc c a\ndual out\nset b\nset b c\nend\n",
        b"rejected dual\n",
        2,
    ),
    (
        OUT_STAR,
        b"certificate 1\ncommand augment-arcs 1\nvalue 2\narc a b\narc c a\ndual out\nset b\nset c\nend\n",
        b"rejected infeasible\n",
        2,
    ),
    (
        OUT_STAR,
        b"certificate 1\ncommand augment-arcs 1\nvalue 2\narc b a\narc c a\ndual cut\nset b\nset c\nend\n",
        b"rejected malformed 6\n",
        2,
    ),
];

const ORIENTED: [Row<'static>; 16] = [
    (
        TRIANGLE,
        b"certificate 1\ncommand orient 1\narc a b\narc b c\narc c a\nend\n",
        b"accepted\n",
        0,
    ),
    (
        TRIANGLE,
        b"certificate 1\ncommand orient 1\narc b a\narc c b\narc a c\nend\n",
        b"accepted\n",
        0,
    ),
    // An arc turned, so that none leaves c.
    (
        TRIANGLE,
        b"certificate 1\ncommand orient 1\narc a b\narc b c\narc a c\nend\n",
        b"rejected infeasible\n",
        2,
    ),
    // Ends of another edge, an arc too few, and one too many.
    (
        TRIANGLE,
        b"certificate 1\ncommand orient 1\narc a c\narc b c\narc c a\nend\n",
        b"rejected malformed 3\n",
        2,
    ),
    (
        TRIANGLE,
        b"certificate 1\ncommand orient 1\narc a b\narc b c\nend\n",
        b"rejected malformed 5\n",
        2,
    ),
    (
        TRIANGLE,
        b"certificate 1\ncommand orient 1\narc a b\narc b c\narc c a\narc c a\nend\n",
        b"rejected malformed 6\n",
        2,
    ),
    // Sides that forbid nothing: two edges leave one, and two aren't proper.
    (
        TRIANGLE,
        b"certificate 1\ncommand orient 1\nimpossible\ndual cut\nset a\nend\n",
        b"rejected dual\n",
        2,
    ),
    (
        TRIANGLE,
        b"certificate 1\ncommand orient 1\nimpossible\ndual cut\nset a b c\nend\n",
        b"rejected dual\n",
        2,
    ),
    (
        TRIANGLE,
        b"certificate 1\ncommand orient 1\nimpossible\ndual cut\nset\nend\n",
        b"rejected dual\n",
        2,
    ),
    // One edge leaves a side, or two.
    (
        PATH,
        b"certificate 1\ncommand orient 1\nimpossible\ndual cut\nset a\nend\n",
        b"accepted\n",
        0,
    ),
    (
        PATH,
        b"certificate 1\ncommand orient 1\nimpossible\ndual cut\nset b c\nend\n",
        b"accepted\n",
        0,
    ),
    (
        PATH,
        b"certificate 1\ncommand orient 1\nimpossible\ndual cut\nset b\nend\n",
        b"rejected dual\n",
        2,
    ),
    (
        PATH,
        b"certificate 1\ncommand orient 1\narc a b\narc b c\nend\n",
        b"rejected infeasible\n",
        2,
    ),
    (
        PATH,
        b"certificate 1\ncommand orient 1\nimpossible\ndual dicut\nset a\nend\n",
        b"rejected malformed 4\n",
        2,
    ),
    // A head that the command doesn't have, and one arc each way, which isn't two.
    (
        PATH,
        b"certificate 1\ncommand orient 1\nvalue 2\narc a b\narc b c\nend\n",
        b"rejected malformed 3\n",
        2,
    ),
    (
        K4,
        b"certificate 1\ncommand orient 2\narc a b\narc c a\narc a d\narc b c\narc b d\narc c d\nend\n",
        b"rejected infeasible\n",
        2,
    ),
];

const CHANGED: [Row<'static>; 21] = [
    // As it was answered, and with the paths exchanged.
    (
        SQUARE,
        b"certificate 1\ncommand flow a d\nvalue 2\npath 3 4\npath 1 2\ndual cut\nset a\nend\n",
        b"accepted\n",
        0,
    ),
    (
        SQUARE,
        b"certificate 1\ncommand flow a d\nvalue 2\npath 1 2\npath 3 4\ndual cut\nset a\nend\n",
        b"accepted\n",
        0,
    ),
    // A part's numbers in another order.
    (
        K4,
        b"certificate 1\ncommand trees\nvalue 2\npart 1 3 6\npart 2 4 5\ndual partition\nset a\nset b\nset c\nset d\nend\n",
        b"accepted\n",
        0,
    ),
    (
        K4,
        b"certificate 1\ncommand trees\nvalue 2\npart 6 1 3\npart 2 4 5\ndual partition\nset a\nset b\nset c\nset d\nend\n",
        b"accepted\n",
        0,
    ),
    // CR LF in the place of each LF, and one LF more.
    (
        SQUARE,
        b"certificate 1\r\ncommand flow a d\r\nvalue 2\r\npath 3 4\r\npath 1 2\r\ndual cut\r\nset a\r\nend\r\n",
        b"rejected malformed 1\n",
        2,
    ),
    (
        SQUARE,
        b"certificate 1\ncommand flow a d\nvalue 2\npath 3 4\npath 1 2\ndual cut\nset a\nend\n\n",
        b"rejected malformed 9\n",
        2,
    ),
    // A path and a set twice.
    (
        SQUARE,
        b"certificate 1\ncommand flow a d\nvalue 2\npath 3 4\npath 3 4\ndual cut\nset a\nend\n",
        b"rejected infeasible\n",
        2,
    ),
    (
        K4,
        b"certificate 1\ncommand trees\nvalue 2\npart 1 3 6\npart 2 4 5\ndual partition\nset a\nset a\nset b\nset c\nset d\nend\n",
        b"rejected dual\n",
        2,
    ),
    // The same of new edges, and the largest number.
    (
        PATH,
        b"certificate 1\r\ncommand augment 2\r\nvalue 1\r\nedge a c\r\ndual subpartition\r\nset a\r\nset c\r\nend\r\n",
        b"rejected malformed 1\n",
        2,
    ),
    (
        PATH,
        b"certificate 1\ncommand augment 2\nvalue 1\nedge a c\ndual subpartition\nset a\nset c\nend\n\n",
        b"rejected malformed 9\n",
        2,
    ),
    (
        PATH,
        b"certificate 1\ncommand augment 2\nvalue 18446744073709551615\nedge a c\ndual subpartition\nset a\nset c\nend\n",
        b"rejected gap\n",
        2,
    ),
    // The least number that is none, and the largest.
    (
        SQUARE,
        b"certificate 1\ncommand flow a d\nvalue 18446744073709551616\npath 3 4\npath 1 2\ndual cut\nset a\nend\n",
        b"rejected malformed 3\n",
        2,
    ),
    (
        SQUARE,
        b"certificate 1\ncommand flow a d\nvalue 18446744073709551615\npath 3 4\npath 1 2\ndual cut\nset a\nend\n",
        b"rejected gap\n",
        2,
    ),
    // The first arc doesn't enter {x, y}, which no arc leaves.
    (
        INTO_ONE,
        b"certificate 1\ncommand dijoin\nvalue 1\njoin 1\ndual dicuts\nset x y\nend\n",
        b"rejected infeasible\n",
        2,
    ),
    // Two arcs of three into one node: none of them enters {x, y, z}.
    (
        b"graph directed\nnode x\nnode y\nnode z\nnode w\narc x y\narc z y\narc w y\nend\n",
        b"certificate 1\ncommand dijoin\nvalue 2\njoin 1 2\ndual dicuts\nset x y z\nset y z w\nend\n",
        b"rejected infeasible\n",
        2,
    ),
    // A fixed arc in a dijoin.
    (
        b"graph directed\nnode a\nnode b\narc a b fixed\narc a b\nend\n",
        b"certificate 1\ncommand dijoin\nvalue 1\njoin 1\ndual dicuts\nset b\nend\n",
        b"rejected infeasible\n",
        2,
    ),
    // An arc leaves {x}, the first set or the second.
    (
        INTO_ONE,
        b"certificate 1\ncommand dijoin\nvalue 2\njoin 1 2\ndual dicuts\nset x\nset y z\nend\n",
        b"rejected dual\n",
        2,
    ),
    (
        INTO_ONE,
        b"certificate 1\ncommand dijoin\nvalue 2\njoin 1 2\ndual dicuts\nset y z\nset x\nend\n",
        b"rejected dual\n",
        2,
    ),
    // An arc that costs nothing enters a set.
    (
        b"graph directed\nnode x\nnode y\nnode z\narc x y cost 0\narc z y\nend\n",
        b"certificate 1\ncommand dijoin\nvalue 1\njoin 1 2\ndual dicuts\nset y\nend\n",
        b"rejected dual\n",
        2,
    ),
    (
        b"graph directed\nnode a\nnode b\narc a b cost 0\nend\n",
        b"certificate 1\ncommand dijoin\nimpossible\ndual dicut\nset b\nend\n",
        b"rejected dual\n",
        2,
    ),
    // An edge that doesn't help.
    (
        PATH,
        b"certificate 1\ncommand augment 2\nvalue 1\nedge a b\ndual subpartition\nset a\nset c\nend\n",
        b"rejected infeasible\n",
        2,
    ),
];

fn are_checked(rt: &impl Abort, alloc: Global, rows: &[Row<'_>]) -> Result<(), Fail> {
    for (graph, rest, text, number) in rows {
        let (written, status) = answer(alloc, "check", &joined(alloc, graph, rest)?)?;
        same(rt, &(written.as_slice(), status), &(*text, *number), rest);
    }
    Ok(())
}

#[test]
fn certificates_are_accepted_or_rejected(rt: HostRuntime) -> Result<(), Fail> {
    are_checked(&rt, rt.alloc(), &CHECKS)
}

#[test]
fn certificates_of_augmentations_are_accepted_or_rejected(rt: HostRuntime) -> Result<(), Fail> {
    are_checked(&rt, rt.alloc(), &AUGMENTED)
}

#[test]
fn certificates_of_orientations_are_accepted_or_rejected(rt: HostRuntime) -> Result<(), Fail> {
    are_checked(&rt, rt.alloc(), &ORIENTED)
}

#[test]
fn changed_certificates_have_their_answers(rt: HostRuntime) -> Result<(), Fail> {
    are_checked(&rt, rt.alloc(), &CHANGED)
}

// What `check` says of each front of a graph text with its certificate behind it, and of the whole.
fn is_cut_off(rt: &impl Abort, alloc: Global, graph: &[u8], whole: &[u8]) -> Result<(), Fail> {
    let mut line: usize = 1;
    for (count, byte) in whole.iter().enumerate() {
        let (written, status) = answer(alloc, "check", &whole[..count])?;
        // The last LF of the graph text may be missing.
        if count.wrapping_add(1) < graph.len() {
            same(rt, &status, &4, &count);
        } else {
            let text = format!(in alloc; "rejected malformed {line}\n")?;
            let want = (text.as_bytes(), 2);
            same(rt, &(written.as_slice(), status), &want, &count);
        }
        if count >= graph.len() && *byte == b'\n' {
            line = line.wrapping_add(1);
        }
    }
    let (written, status) = answer(alloc, "check", whole)?;
    let want = (b"accepted\n".as_slice(), 0);
    same(rt, &(written.as_slice(), status), &want, &"whole");
    Ok(())
}

fn are_cut_off(rt: &impl Abort, alloc: Global, rows: &[(&str, &[u8])]) -> Result<(), Fail> {
    for (words, graph) in rows {
        let (certificate, _) = answer(alloc, words, graph)?;
        is_cut_off(rt, alloc, graph, &joined(alloc, graph, &certificate)?)?;
    }
    Ok(())
}

#[test]
fn a_certificate_that_is_cut_off_goes_on_at_its_first_missing_line(
    rt: HostRuntime,
) -> Result<(), Fail> {
    let rows: [(&str, &[u8]); 3] = [("flow a d", SQUARE), ("trees", K4), ("forests", K4)];
    are_cut_off(&rt, rt.alloc(), &rows)
}

#[test]
fn an_augmentation_or_orientation_that_is_cut_off_goes_on_at_its_first_missing_line(
    rt: HostRuntime,
) -> Result<(), Fail> {
    let rows: [(&str, &[u8]); 2] = [("augment 2", PATH), ("orient 1", EDGE)];
    are_cut_off(&rt, rt.alloc(), &rows)
}
