use crate::asserts::same;
use graph_text::{GraphRefusal, Why, read_graph, read_graph_alone, write_graph};
use std::alloc::Global;
use std::process::Abort;
use std::test::Fail;

// A text with what follows it, the number of the text's bytes, the plain text, and the number of
// the first later line that isn't skipped, or 0.
const TEXTS: [(&[u8], usize, &[u8], usize); 13] = [
    (
        b"graph undirected\nnode a\nnode b\nedge a b\nend\n",
        44,
        b"graph undirected\nnode a\nnode b\nedge a b\nend\n",
        0,
    ),
    (
        b"graph directed\nnode a\nnode b\narc a b fixed\nend\n",
        47,
        b"graph directed\nnode a\nnode b\narc a b fixed\nend\n",
        0,
    ),
    (
        b"graph directed\nnode fixed\nnode node\narc fixed node fixed\nnode end\narc node end\narc end fixed fixed\nend\n",
        103,
        b"graph directed\nnode fixed\nnode node\nnode end\narc fixed node fixed\narc node end\narc end fixed fixed\nend\n",
        0,
    ),
    (
        b"# a comment\r\n\r\n \t \ngraph\tundirected\r\n  node  a \r\nnode b\t\n#node c\n # edge a\nedge\tb  a\r\n\tend",
        90,
        b"graph undirected\nnode a\nnode b\nedge b a\nend\n",
        0,
    ),
    (
        b"graph undirected\nnode a\nnode b\nedge a b\nedge b a\nedge a b\nend \r\n\n# done\r\n \t\r\n#end",
        64,
        b"graph undirected\nnode a\nnode b\nedge a b\nedge b a\nedge a b\nend\n",
        0,
    ),
    (
        b"graph directed\nnode a\nend\nvalue 3\n",
        26,
        b"graph directed\nnode a\nend\n",
        4,
    ),
    (
        b"graph directed\nnode a\nend\n\n# x\nend\nend\n",
        26,
        b"graph directed\nnode a\nend\n",
        6,
    ),
    (
        b"graph directed\nnode a\nend\n \r\r\n",
        26,
        b"graph directed\nnode a\nend\n",
        4,
    ),
    (
        b"graph directed\nnode a\nend\n\r\n\r",
        26,
        b"graph directed\nnode a\nend\n",
        0,
    ),
    (
        b"graph undirected\nnode ABCDEFGHIJKLMNOPQRSTUVWXYZ_.-789\nnode abcdefghijklmnopqrstuvwxyz012345\nnode 6\nend\n#\0\xFF\n",
        104,
        b"graph undirected\nnode ABCDEFGHIJKLMNOPQRSTUVWXYZ_.-789\nnode abcdefghijklmnopqrstuvwxyz012345\nnode 6\nend\n",
        0,
    ),
    (
        b"graph directed\nnode a 0\nnode b 8192\nnode c\narc a b cost 0\narc b c cost 1\narc a c cost 100\narc c a fixed\nend\n",
        108,
        b"graph directed\nnode a\nnode b 8192\nnode c\narc a b cost 0\narc b c\narc a c cost 100\narc c a fixed\nend\n",
        0,
    ),
    (
        b"graph undirected\nnode 7 7\r\n\tnode  cost\t10 \nedge 7 cost\nend\n# 1\n",
        59,
        b"graph undirected\nnode 7 7\nnode cost 10\nedge 7 cost\nend\n",
        0,
    ),
    (
        b"graph directed\nnode cost\nnode fixed 1\narc cost fixed cost 2\narc fixed cost fixed\nend",
        84,
        b"graph directed\nnode cost\nnode fixed 1\narc cost fixed cost 2\narc fixed cost fixed\nend\n",
        0,
    ),
];

// A text, its first line with a fault, and the cause.
const FAULTS: [(&[u8], usize, Why); 78] = [
    (b"", 1, Why::NoHeader),
    (b"# only\n\n", 3, Why::NoHeader),
    (b"node a\n", 1, Why::NoHeader),
    (b"end\n", 1, Why::NoHeader),
    (b"graph\n", 1, Why::NoHeader),
    (b"graph undirected x\n", 1, Why::NoHeader),
    (b"graph mixed\n", 1, Why::NoHeader),
    (b"Graph directed\n", 1, Why::NoHeader),
    (b"graph\rdirected\n", 1, Why::NoHeader),
    (b"graph directed\r\r\n", 1, Why::NoHeader),
    (b"\xEF\xBB\xBFgraph directed\n", 1, Why::NoHeader),
    (b"\n#\nedge a! b\ngraph undirected\n", 3, Why::NoHeader),
    (b"graph undirected\ngraph undirected\n", 2, Why::BadLine),
    (b"graph undirected\ngraph directed\n", 2, Why::BadLine),
    (b"graph directed\nnode\n", 2, Why::BadLine),
    (b"graph directed\nnode a 1 2\n", 2, Why::BadLine),
    (b"graph directed\nnode a\nend x\n", 3, Why::BadLine),
    (b"graph directed\narc a b loose\n", 2, Why::BadLine),
    (b"graph directed\narc a b fixed x\n", 2, Why::BadLine),
    (b"graph directed\narc a b cost\n", 2, Why::BadLine),
    (b"graph directed\narc a b costs 3\n", 2, Why::BadLine),
    (b"graph directed\narc a b 3\n", 2, Why::BadLine),
    (b"graph directed\narc a b fixed cost 1\n", 2, Why::BadLine),
    (b"graph directed\narc a b cost 1 fixed\n", 2, Why::BadLine),
    (b"graph undirected\nedge a b cost 1\n", 2, Why::BadLine),
    (b"graph undirected\nedge a\n", 2, Why::BadLine),
    (b"graph undirected\nedge a b fixed\n", 2, Why::BadLine),
    (
        b"graph undirected\nnode a\n\nvertex b\nend\n",
        4,
        Why::BadLine,
    ),
    (b"graph undirected\nnode a\nEND\n", 3, Why::BadLine),
    (
        b"graph directed\nnode a\nnode b\nedge a b\n",
        4,
        Why::WrongKind,
    ),
    (
        b"graph undirected\nnode a\nnode b\narc a b\n",
        4,
        Why::WrongKind,
    ),
    (
        b"graph undirected\nnode a\nnode b\narc a b fixed\n",
        4,
        Why::WrongKind,
    ),
    (b"graph directed\nedge a! b\n", 2, Why::WrongKind),
    (b"graph undirected\narc a b cost x\n", 2, Why::WrongKind),
    (b"graph undirected\nnode a!\n", 2, Why::BadName),
    (b"graph undirected\nnode a! x\n", 2, Why::BadName),
    (b"graph directed\narc a b! cost x\n", 2, Why::BadName),
    (
        b"graph undirected\nnode ABCDEFGHIJKLMNOPQRSTUVWXYZ_.-7890\n",
        2,
        Why::BadName,
    ),
    (b"graph undirected\nnode \xC3\xA9\n", 2, Why::BadName),
    (b"graph undirected\nnode a\r\r\n", 2, Why::BadName),
    (b"graph undirected\nnode a\0\n", 2, Why::BadName),
    (b"graph undirected\nnode a/b\n", 2, Why::BadName),
    (b"graph undirected\nnode a:b\n", 2, Why::BadName),
    (b"graph undirected\nnode a@b\n", 2, Why::BadName),
    (b"graph undirected\nnode a[b\n", 2, Why::BadName),
    (b"graph undirected\nnode a`b\n", 2, Why::BadName),
    (b"graph undirected\nnode a{b\n", 2, Why::BadName),
    (b"graph undirected\nnode a,b\n", 2, Why::BadName),
    (b"graph undirected\nnode a\nedge a! b\n", 3, Why::BadName),
    (b"graph undirected\nnode a\nedge b a!\n", 3, Why::BadName),
    (b"graph directed\nnode a b\n", 2, Why::BadNumber),
    (b"graph directed\nnode a #\n", 2, Why::BadNumber),
    (b"graph directed\nnode a 8193\n", 2, Why::BadNumber),
    (b"graph directed\nnode a -0\n", 2, Why::BadNumber),
    (b"graph directed\nnode a +1\n", 2, Why::BadNumber),
    (b"graph directed\nnode a 01\n", 2, Why::BadNumber),
    (b"graph directed\nnode a 00\n", 2, Why::BadNumber),
    (b"graph directed\nnode a 1.0\n", 2, Why::BadNumber),
    (b"graph directed\nnode a 1\0\n", 2, Why::BadNumber),
    (b"graph directed\nnode a \xC2\xB2\n", 2, Why::BadNumber),
    (b"graph directed\nnode a \xFF\n", 2, Why::BadNumber),
    (
        b"graph directed\nnode a 18446744073709551617\n",
        2,
        Why::BadNumber,
    ),
    (b"graph directed\nnode a\nnode a x\n", 3, Why::BadNumber),
    (b"graph directed\narc a a cost 101\n", 2, Why::BadNumber),
    (b"graph directed\narc a b cost 07\n", 2, Why::BadNumber),
    (b"graph directed\narc a b cost fixed\n", 2, Why::BadNumber),
    (
        b"graph undirected\nnode a\nnode b\nnode a\nend\n",
        4,
        Why::TwiceNode,
    ),
    (
        b"graph undirected\nnode a\n\n# again\nnode a",
        5,
        Why::TwiceNode,
    ),
    (
        b"graph undirected\nnode a\nedge a b\nnode b\nend\n",
        3,
        Why::UnknownNode,
    ),
    (
        b"graph undirected\nnode a\nedge b a\nnode b\nend\n",
        3,
        Why::UnknownNode,
    ),
    (b"graph undirected\nnode a\nedge b b\n", 3, Why::UnknownNode),
    (b"graph undirected\nnode a\nedge a a\n", 3, Why::Loop),
    (
        b"graph directed\nnode a\narc a a fixed\nend\n",
        3,
        Why::Loop,
    ),
    (b"graph directed\nend\n", 2, Why::NoNode),
    (b"graph directed\n\n# x\nend", 4, Why::NoNode),
    (b"graph directed\n", 2, Why::NoEnd),
    (b"graph directed\nnode a", 3, Why::NoEnd),
    (b"graph directed\nnode a\n\n", 4, Why::NoEnd),
];

fn are_read_and_written(
    rt: &impl Abort,
    alloc: Global,
    rows: &[(&[u8], usize, &[u8], usize)],
) -> Result<(), Fail> {
    for (text, count, plain, later) in rows {
        let (graph, bytes) = read_graph(alloc, text)?;
        let written = write_graph(alloc, &graph)?;
        same(rt, &(bytes, written.as_slice()), &(*count, *plain), text);
        let alone = read_graph_alone(alloc, text);
        same(rt, &alone.err(), &later_fault(*later), text);
    }
    Ok(())
}

#[test]
fn texts_are_read_and_written(rt: HostRuntime) -> Result<(), Fail> {
    are_read_and_written(&rt, rt.alloc(), &TEXTS)
}

fn later_fault(line: usize) -> Option<GraphRefusal> {
    if line == 0 {
        return None;
    }
    Some(GraphRefusal::Fault {
        line,
        why: Why::BadLine,
    })
}

fn are_faults(rt: &impl Abort, alloc: Global, rows: &[(&[u8], usize, Why)]) {
    for (text, line, why) in rows {
        let fault = Some(GraphRefusal::Fault {
            line: *line,
            why: *why,
        });
        let found = (
            read_graph(alloc, text).err(),
            read_graph_alone(alloc, text).err(),
        );
        same(rt, &found, &(fault, fault), text);
    }
}

#[test]
fn the_first_fault_is_told(rt: HostRuntime) {
    are_faults(&rt, rt.alloc(), &FAULTS);
}

// Nodes `aa` to `hp`, parallel arcs from `aa` to `ab`, a line more, and the cause that it has.
const LIMITS: [(u8, usize, &[u8], Option<Why>); 6] = [
    (128, 2048, b"end\n", None),
    (128, 0, b"node zz\n", Some(Why::ManyNodes)),
    (128, 0, b"node aa\n", Some(Why::TwiceNode)),
    (2, 2048, b"arc aa ab\n", Some(Why::ManyLines)),
    (2, 2048, b"arc aa zz\n", Some(Why::UnknownNode)),
    (2, 2048, b"arc aa aa\n", Some(Why::Loop)),
];

#[test]
fn limits_are_kept(rt: HostRuntime) -> Result<(), Fail> {
    let alloc = rt.alloc();
    for (nodes, arcs, last, why) in LIMITS {
        let text = large_text(alloc, nodes, arcs, last)?;
        let line = 2 + nodes as usize + arcs;
        let mut fault = None;
        if let Some(why) = why {
            fault = Some(GraphRefusal::Fault { line, why });
        }
        same(&rt, &read_graph(alloc, &text).err(), &fault, &(nodes, arcs));
    }
    Ok(())
}

fn large_text(alloc: Global, nodes: u8, arcs: usize, last: &[u8]) -> Result<Vec<u8>, Fail> {
    let mut text = b"graph directed\n".to_vec(alloc)?;
    for node in 0..nodes {
        text.extend_from_slice(b"node ")?;
        text.push(b'a' + node / 16)?;
        text.push(b'a' + node % 16)?;
        text.push(b'\n')?;
    }
    repeated(alloc, &text, b"arc aa ab\n", arcs, last)
}

const NUMBERS: &[u8] =
    b"graph undirected\nnode a 8192\nnode b 8192\nnode c 8192\nnode d 8192\nnode e 8192\nnode f 8192\nnode g 8192\nnode h 8192\n";

const COSTS: &[u8] = b"graph directed\nnode a\nnode b\n";

const COST: &[u8] = b"arc a b cost 100\n";

// The front of a text, a line that follows so often, what follows then, and the line and cause of
// the first fault.
const SUMS: [(&[u8], &[u8], usize, &[u8], Option<(usize, Why)>); 11] = [
    (NUMBERS, b"", 0, b"end\n", None),
    (NUMBERS, b"", 0, b"node i\nnode j 0\nend\n", None),
    (NUMBERS, b"", 0, b"node i 1\n", Some((10, Why::ManyNumbers))),
    (
        NUMBERS,
        b"",
        0,
        b"node i\nnode j 1\n",
        Some((11, Why::ManyNumbers)),
    ),
    (NUMBERS, b"", 0, b"node a 1\n", Some((10, Why::TwiceNode))),
    (COSTS, COST, 40, b"end\n", None),
    (COSTS, COST, 40, b"arc b a cost 0\nend\n", None),
    (COSTS, COST, 40, COST, Some((44, Why::ManyCosts))),
    (COSTS, COST, 40, b"arc b a\n", Some((44, Why::ManyCosts))),
    (
        COSTS,
        COST,
        40,
        b"arc b a fixed\n",
        Some((44, Why::ManyCosts)),
    ),
    (COSTS, COST, 40, b"arc a a cost 1\n", Some((44, Why::Loop))),
];

#[test]
fn sums_of_numbers_and_costs_are_kept(rt: HostRuntime) -> Result<(), Fail> {
    let alloc = rt.alloc();
    for (front, part, times, last, first) in SUMS {
        let text = repeated(alloc, front, part, times, last)?;
        let mut fault = None;
        if let Some((line, why)) = first {
            fault = Some(GraphRefusal::Fault { line, why });
        }
        same(&rt, &read_graph(alloc, &text).err(), &fault, &last);
    }
    Ok(())
}

fn repeated(
    alloc: Global,
    front: &[u8],
    part: &[u8],
    times: usize,
    last: &[u8],
) -> Result<Vec<u8>, Fail> {
    let mut text = front.to_vec(alloc)?;
    for _ in 0..times {
        text.extend_from_slice(part)?;
    }
    text.extend_from_slice(last)?;
    Ok(text)
}
