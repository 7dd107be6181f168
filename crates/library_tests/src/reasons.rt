//! What each refusal of a library says of itself.

use crate::asserts::same;
use certificate_checker::Rejection;
use certificate_text::CertRefusal;
use graph_text::{GraphRefusal, Why};
use std::alloc::Global;
use std::fmt::{Debug, Display};
use std::process::Abort;
use std::test::Fail;

const OF_CHECKS: [(Rejection, &str); 5] = [
    (
        Rejection::Malformed { line: 3 },
        "no certificate text goes on as line 3 does",
    ),
    (Rejection::Infeasible, "the object is not feasible"),
    (Rejection::BadDual, "the dual is not feasible"),
    (
        Rejection::Gap,
        "the value, the object and the dual are not of one size",
    ),
    (Rejection::NoMemory, "no memory is left"),
];

const OF_CERTIFICATES: [(CertRefusal, &str); 2] = [
    (
        CertRefusal::Bad { line: 12 },
        "line 12 is no line of a certificate",
    ),
    (CertRefusal::NoMemory, "memory ran out"),
];

const OF_GRAPHS: [(GraphRefusal, &str); 2] = [
    (
        GraphRefusal::Fault {
            line: 1,
            why: Why::NoHeader,
        },
        "line 1: the text does not begin with `graph undirected` or `graph directed`",
    ),
    (GraphRefusal::NoMemory, "no memory is left"),
];

const OF_LINES: [(Why, &str); 13] = [
    (Why::BadLine, "the line is no node, edge, arc or end"),
    (
        Why::BadName,
        "a name has to be 1 to 32 letters, digits, `_`, `.` or `-`",
    ),
    (
        Why::BadNumber,
        "a number has to be a decimal, of a node 0 to 8192 and of an arc's cost 0 to 100",
    ),
    (Why::TwiceNode, "a node has this name already"),
    (Why::UnknownNode, "no node has this name yet"),
    (Why::Loop, "the two ends are one node"),
    (
        Why::WrongKind,
        "an undirected graph has edges, a directed graph has arcs",
    ),
    (Why::NoNode, "the graph has no node"),
    (Why::NoEnd, "the text has no end line"),
    (Why::ManyNodes, "the graph has more than 128 nodes"),
    (Why::ManyLines, "the graph has more than 2048 edges or arcs"),
    (
        Why::ManyNumbers,
        "the numbers of the nodes add up to more than 65536",
    ),
    (
        Why::ManyCosts,
        "the costs of the arcs add up to more than 4000",
    ),
];

fn are_said<R: Display + Debug>(
    rt: &impl Abort,
    alloc: Global,
    rows: &[(R, &str)],
) -> Result<(), Fail> {
    for (reason, text) in rows {
        let said = format!(in alloc; "{reason}")?;
        same(rt, &said.as_str(), text, reason);
    }
    Ok(())
}

#[test]
fn each_reason_has_its_text(rt: HostRuntime) -> Result<(), Fail> {
    are_said(&rt, rt.alloc(), &OF_CHECKS)?;
    are_said(&rt, rt.alloc(), &OF_CERTIFICATES)?;
    are_said(&rt, rt.alloc(), &OF_GRAPHS)?;
    are_said(&rt, rt.alloc(), &OF_LINES)
}
