//! Certificates of a square and of each ordered pair of three nodes, right and wrong.

use crate::asserts::same;
use certificate_checker::{Rejection, check};
use std::alloc::Global;
use std::process::Abort;
use std::test::Fail;
use test_graphs::{COMPLETE, SQUARE, graph_of};

// A graph, a certificate for it, and the checker's answer.
const CHECKS: [(&[u8], &str, Result<(), Rejection>); 52] = [
    // Walks across the square.
    (
        SQUARE,
        "certificate 1\ncommand flow a d\nvalue 2\npath 1 2\npath 3 4\ndual cut\nset a\nend\n",
        Ok(()),
    ),
    (
        SQUARE,
        "certificate 1\ncommand flow a d\nvalue 2\npath 1 2\npath 3 4\ndual cut\nset a b c\nend\n",
        Ok(()),
    ),
    // The side misses the first node.
    (
        SQUARE,
        "certificate 1\ncommand flow a d\nvalue 2\npath 1 2\npath 3 4\ndual cut\nset b\nend\n",
        Err(Rejection::BadDual),
    ),
    // Lines that are no walk.
    (
        SQUARE,
        "certificate 1\ncommand flow a d\nvalue 2\npath 1 3\npath 3 4\ndual cut\nset a\nend\n",
        Err(Rejection::Infeasible),
    ),
    // An edge in two walks.
    (
        SQUARE,
        "certificate 1\ncommand flow a d\nvalue 2\npath 1 2\npath 1 2\ndual cut\nset a\nend\n",
        Err(Rejection::Infeasible),
    ),
    // The object is looked at first.
    (
        SQUARE,
        "certificate 1\ncommand flow a d\nvalue 2\npath 1 3\npath 3 4\ndual cut\nset b\nend\n",
        Err(Rejection::Infeasible),
    ),
    // One walk less than there are.
    (
        SQUARE,
        "certificate 1\ncommand flow a d\nvalue 1\npath 1 2\ndual cut\nset a\nend\n",
        Err(Rejection::Gap),
    ),
    (
        SQUARE,
        "certificate 1\ncommand flow a d\nvalue 3\npath 1 2\npath 3 4\ndual cut\nset a\nend\n",
        Err(Rejection::Gap),
    ),
    (
        SQUARE,
        "certificate 1\ncommand flow a d\nvalue 2\npath 1 2\npath 3 4\ndual cut\nset a\n",
        Err(Rejection::Malformed { line: 8 }),
    ),
    (
        SQUARE,
        "certificate 1\ncommand flow a d\nvalue 2\npath 1 2\npath 3 4\ndual cut\nset a\nend\n\n",
        Err(Rejection::Malformed { line: 9 }),
    ),
    (
        SQUARE,
        "certificate 1\ncommand flow a d\nvalue 02\npath 1 2\npath 3 4\ndual cut\nset a\nend\n",
        Err(Rejection::Malformed { line: 3 }),
    ),
    // No side is closed.
    (
        COMPLETE,
        "certificate 1\ncommand dijoin\nvalue 0\njoin\ndual dicuts\nend\n",
        Ok(()),
    ),
    (
        COMPLETE,
        "certificate 1\ncommand dijoin\nimpossible\ndual dicut\nset a\nend\n",
        Err(Rejection::BadDual),
    ),
    // A square needs no edge. The second text goes on behind its end.
    (
        SQUARE,
        "certificate 1\ncommand augment 2\nvalue 0\ndual subpartition\nend\n",
        Ok(()),
    ),
    (
        SQUARE,
        "certificate 1\ncommand augment 2\nvalue 0\ndual subpartition\nend\nend\n",
        Err(Rejection::Malformed { line: 6 }),
    ),
    (SQUARE, "", Err(Rejection::Malformed { line: 1 })),
    // Cut trees of the square.
    (
        SQUARE,
        "certificate 1\ncommand cuttree\ntree a b 2\ntree b d 2\ntree d c 2\nend\n",
        Ok(()),
    ),
    (
        SQUARE,
        "certificate 1\ncommand cuttree\ntree c d 2\ntree a b 2\ntree d b 2\nend\n",
        Ok(()),
    ),
    (
        SQUARE,
        "certificate 1\ncommand cuttree\ntree a b 2\ntree a c 2\ntree a d 2\nend\n",
        Ok(()),
    ),
    (
        SQUARE,
        "certificate 1\ncommand cuttree\ntree a b 2\ntree b d 1\ntree d c 2\nend\n",
        Err(Rejection::BadDual),
    ),
    (
        SQUARE,
        "certificate 1\ncommand cuttree\ntree a b 2\ntree b d 3\ntree d c 2\nend\n",
        Err(Rejection::BadDual),
    ),
    // Without its pair a b the tree makes a cut of four edges.
    (
        SQUARE,
        "certificate 1\ncommand cuttree\ntree a d 2\ntree a b 2\ntree b c 2\nend\n",
        Err(Rejection::BadDual),
    ),
    // The weight is that of the cut, which isn't a least one.
    (
        SQUARE,
        "certificate 1\ncommand cuttree\ntree a d 2\ntree a b 4\ntree b c 2\nend\n",
        Err(Rejection::BadDual),
    ),
    (
        SQUARE,
        "certificate 1\ncommand cuttree\ntree a b 2\ntree b d 2\nend\n",
        Err(Rejection::Infeasible),
    ),
    // Pairs that are no tree.
    (
        SQUARE,
        "certificate 1\ncommand cuttree\ntree a b 2\ntree b d 2\ntree d a 2\nend\n",
        Err(Rejection::Infeasible),
    ),
    (
        SQUARE,
        "certificate 1\ncommand cuttree\ntree a b 2\ntree b a 2\ntree d c 2\nend\n",
        Err(Rejection::Infeasible),
    ),
    // Trees of the square.
    (
        SQUARE,
        "certificate 1\ncommand trees\nvalue 1\npart 1 2 3\ndual partition\nset a\nset b\nset c\nset d\nend\n",
        Ok(()),
    ),
    (
        SQUARE,
        "certificate 1\ncommand trees\nvalue 1\npart 1 2\ndual partition\nset a\nset b\nset c\nset d\nend\n",
        Err(Rejection::Infeasible),
    ),
    (
        SQUARE,
        "certificate 1\ncommand trees\nvalue 1\npart 1 2 2\ndual partition\nset a\nset b\nset c\nset d\nend\n",
        Err(Rejection::Infeasible),
    ),
    // An edge in two trees.
    (
        SQUARE,
        "certificate 1\ncommand trees\nvalue 2\npart 1 2 3\npart 1 2 4\ndual partition\nset a\nset b c d\nend\n",
        Err(Rejection::Infeasible),
    ),
    (
        SQUARE,
        "certificate 1\ncommand trees\nvalue 1\npart 1 2 3\ndual partition\nset a b c d\nend\n",
        Err(Rejection::BadDual),
    ),
    (
        SQUARE,
        "certificate 1\ncommand trees\nvalue 1\npart 1 2 3\ndual partition\nset a b\nset b c d\nend\n",
        Err(Rejection::BadDual),
    ),
    (
        SQUARE,
        "certificate 1\ncommand trees\nvalue 1\npart 1 2 3\ndual partition\nset a\nset b\nset c\nend\n",
        Err(Rejection::BadDual),
    ),
    (
        SQUARE,
        "certificate 1\ncommand trees\nvalue 1\npart 1 2 3\ndual partition\nset\nset a\nset b c d\nend\n",
        Err(Rejection::BadDual),
    ),
    (
        SQUARE,
        "certificate 1\ncommand trees\nvalue 1\npart 1 2 3\ndual partition\nset a\nset b c d\nend\n",
        Err(Rejection::Gap),
    ),
    // Forests of the square.
    (
        SQUARE,
        "certificate 1\ncommand forests\nvalue 2\npart 4\npart 3 1 2\ndual set\nset a b c d\nend\n",
        Ok(()),
    ),
    // A circuit.
    (
        SQUARE,
        "certificate 1\ncommand forests\nvalue 1\npart 1 2 3 4\ndual set\nset a b\nend\n",
        Err(Rejection::Infeasible),
    ),
    // An edge in no forest.
    (
        SQUARE,
        "certificate 1\ncommand forests\nvalue 1\npart 1 2 3\ndual set\nset a b\nend\n",
        Err(Rejection::Infeasible),
    ),
    // An edge in two forests.
    (
        SQUARE,
        "certificate 1\ncommand forests\nvalue 2\npart 1 2 3\npart 3 4\ndual set\nset a b c d\nend\n",
        Err(Rejection::Infeasible),
    ),
    (
        SQUARE,
        "certificate 1\ncommand forests\nvalue 2\npart 1 2 3\npart 4\ndual set\nset a\nend\n",
        Err(Rejection::BadDual),
    ),
    // A side that shows less.
    (
        SQUARE,
        "certificate 1\ncommand forests\nvalue 2\npart 1 2 3\npart 4\ndual set\nset a b c\nend\n",
        Err(Rejection::Gap),
    ),
    (
        SQUARE,
        "certificate 1\ncommand forests\nvalue 3\npart 1 2 3\npart\npart 4\ndual set\nset a b c d\nend\n",
        Err(Rejection::Gap),
    ),
    (
        SQUARE,
        "certificate 1\ncommand forests\nvalue 2\npart 1 2 3\npart 4\ndual none\nend\n",
        Err(Rejection::Gap),
    ),
    // Arborescences of the root a.
    (
        COMPLETE,
        "certificate 1\ncommand arborescences a\nvalue 2\npart 1 4\npart 6 2\ndual cut\nset b\nend\n",
        Ok(()),
    ),
    (
        COMPLETE,
        "certificate 1\ncommand arborescences a\nvalue 2\npart 1 4\npart 1 2\ndual cut\nset b\nend\n",
        Err(Rejection::Infeasible),
    ),
    // No arc leaves the root.
    (
        COMPLETE,
        "certificate 1\ncommand arborescences a\nvalue 1\npart 4 6\ndual cut\nset b\nend\n",
        Err(Rejection::Infeasible),
    ),
    // An arc leads to the root.
    (
        COMPLETE,
        "certificate 1\ncommand arborescences a\nvalue 1\npart 2 3\ndual cut\nset b\nend\n",
        Err(Rejection::Infeasible),
    ),
    // A node is the head of two arcs.
    (
        COMPLETE,
        "certificate 1\ncommand arborescences a\nvalue 1\npart 1 6\ndual cut\nset b\nend\n",
        Err(Rejection::Infeasible),
    ),
    (
        COMPLETE,
        "certificate 1\ncommand arborescences a\nvalue 1\npart 1\ndual cut\nset b\nend\n",
        Err(Rejection::Infeasible),
    ),
    (
        COMPLETE,
        "certificate 1\ncommand arborescences a\nvalue 1\npart 1 2\ndual cut\nset a b\nend\n",
        Err(Rejection::BadDual),
    ),
    (
        COMPLETE,
        "certificate 1\ncommand arborescences a\nvalue 0\ndual cut\nset\nend\n",
        Err(Rejection::BadDual),
    ),
    (
        COMPLETE,
        "certificate 1\ncommand arborescences a\nvalue 1\npart 1 2\ndual cut\nset b c\nend\n",
        Err(Rejection::Gap),
    ),
];

fn are_checked(
    rt: &impl Abort,
    alloc: Global,
    rows: &[(&[u8], &str, Result<(), Rejection>)],
) -> Result<(), Fail> {
    for (graph, text, want) in rows {
        let graph = graph_of(alloc, graph)?;
        same(rt, &check(alloc, &graph, text.as_bytes()), want, text);
    }
    Ok(())
}

#[test]
fn certificates_are_accepted_or_have_their_reason(rt: HostRuntime) -> Result<(), Fail> {
    are_checked(&rt, rt.alloc(), &CHECKS)
}
