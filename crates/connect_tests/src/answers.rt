use crate::examples::ONE_NODE;
use crate::run::{answer, graph_text, joined, same};
use std::alloc::Global;
use std::process::Abort;
use std::test::Fail;
use test_graphs::{OUT_STAR, PATH, SQUARE, TRIANGLE};

// Words, input, the whole text and the exit number.
const WHOLE: [(&str, &[u8], &[u8], u8); 54] = [
    // No word goes on; the source isn't read.
    ("", b"", b"words 1\n", 3),
    ("flow a", b"", b"words 3\n", 3),
    ("flow a b c", b"", b"words 4\n", 3),
    ("augment 33", b"", b"words 2\n", 3),
    ("augment 02", b"", b"words 2\n", 3),
    ("augment-arcs 0", b"", b"words 2\n", 3),
    ("augment-arcs", b"", b"words 2\n", 3),
    ("orient 33", b"", b"words 2\n", 3),
    ("orient 1 2", b"", b"words 3\n", 3),
    ("trial flow 40 x", b"", b"words 4\n", 3),
    ("trial dijoin 1 7", b"", b"words 3\n", 3),
    ("dijoin x", b"", b"words 2\n", 3),
    ("check x", b"", b"words 2\n", 3),
    (
        "check",
        b"graph undirected\nnode a\n",
        b"graph 3 noend\n",
        4,
    ),
    // The first fault of the graph text.
    ("forests", b"", b"graph 1 header\n", 4),
    ("forests", b"# nothing\n\n", b"graph 3 header\n", 4),
    (
        "forests",
        b"graph undirected\nnode a\nedge a a\nend\n",
        b"graph 3 loop\n",
        4,
    ),
    (
        "forests",
        b"graph undirected\nnode a\nnode a\nend\n",
        b"graph 3 twice\n",
        4,
    ),
    (
        "forests",
        b"graph undirected\nnode a\n",
        b"graph 3 noend\n",
        4,
    ),
    (
        "forests",
        b"graph undirected\nnode a\narc a b\nend\n",
        b"graph 3 kind\n",
        4,
    ),
    (
        "forests",
        b"graph undirected\nnode a\nend\nnode b\n",
        b"graph 4 line\n",
        4,
    ),
    (
        "forests",
        b"graph undirected\nend\n",
        b"graph 2 nonode\n",
        4,
    ),
    (
        "forests",
        b"graph undirected\nnode a\nedge a b\nend\n",
        b"graph 3 unknown\n",
        4,
    ),
    (
        "forests",
        b"graph undirected\nnode a+\nend\n",
        b"graph 2 name\n",
        4,
    ),
    (
        "forests",
        b"graph undirected\nnode a x\nend\n",
        b"graph 2 number\n",
        4,
    ),
    (
        "flow a b",
        b"graph directed\nnode a\nnode b\narc a b cost 101\nend\n",
        b"graph 4 number\n",
        4,
    ),
    // The numbers of the nodes add up to 65,536, and to more.
    (
        "forests",
        b"graph undirected\nnode x1 8192\nnode x2 8192\nnode x3 8192\nnode x4 8192\nnode x5 8192\nnode x6 8192\nnode x7 8192\nnode x8 8192\nend\n",
        b"certificate 1\ncommand forests\nvalue 0\ndual none\nend\n",
        0,
    ),
    (
        "forests",
        b"graph undirected\nnode x1 8192\nnode x2 8192\nnode x3 8192\nnode x4 8192\nnode x5 8192\nnode x6 8192\nnode x7 8192\nnode x8 8192\nnode x9 8192\nend\n",
        b"large numbers\n",
        5,
    ),
    // The costs of arcs count, and a fixed arc is never taken.
    (
        "dijoin",
        b"graph directed\nnode a\nnode b\narc a b cost 0\nend\n",
        b"certificate 1\ncommand dijoin\nvalue 0\njoin 1\ndual dicuts\nend\n",
        0,
    ),
    (
        "dijoin",
        b"graph directed\nnode a\nnode b\narc a b fixed\nend\n",
        b"certificate 1\ncommand dijoin\nimpossible\ndual dicut\nset b\nend\n",
        1,
    ),
    (
        "dijoin",
        b"graph directed\nnode a\nnode b\narc a b fixed\narc a b\nend\n",
        b"certificate 1\ncommand dijoin\nvalue 1\njoin 2\ndual dicuts\nset b\nend\n",
        0,
    ),
    (
        "dijoin",
        b"graph directed\nnode a\nnode b\nnode c\narc a b\narc b c\narc c a\nend\n",
        b"certificate 1\ncommand dijoin\nvalue 0\njoin\ndual dicuts\nend\n",
        0,
    ),
    // The ask doesn't suit the graph.
    ("dijoin", SQUARE, b"unsuited kind\n", 6),
    ("flow a a", SQUARE, b"unsuited same\n", 6),
    ("flow a q", SQUARE, b"unsuited node\n", 6),
    ("flow q q", SQUARE, b"unsuited node\n", 6),
    (
        "cuttree",
        b"graph directed\nnode a\nend\n",
        b"unsuited kind\n",
        6,
    ),
    (
        "trees",
        b"graph undirected\nnode a\nend\n",
        b"unsuited small\n",
        6,
    ),
    (
        "arborescences a",
        b"graph directed\nnode a\nend\n",
        b"unsuited small\n",
        6,
    ),
    (
        "arborescences q",
        b"graph directed\nnode a\nnode b\nend\n",
        b"unsuited node\n",
        6,
    ),
    (
        "arborescences a",
        b"graph undirected\nnode a\nend\n",
        b"unsuited kind\n",
        6,
    ),
    ("augment 2", OUT_STAR, b"unsuited kind\n", 6),
    ("augment-arcs 2", PATH, b"unsuited kind\n", 6),
    ("orient 1", OUT_STAR, b"unsuited kind\n", 6),
    // A graph that needs no edge, and one node, which is connected and has nothing to orient.
    (
        "augment 2",
        TRIANGLE,
        b"certificate 1\ncommand augment 2\nvalue 0\ndual subpartition\nend\n",
        0,
    ),
    (
        "augment 1",
        ONE_NODE,
        b"certificate 1\ncommand augment 1\nvalue 0\ndual components\nset a\nend\n",
        0,
    ),
    (
        "orient 3",
        ONE_NODE,
        b"certificate 1\ncommand orient 3\nend\n",
        0,
    ),
    // One node has no edge to cover, and is a cut tree with no pair.
    (
        "forests",
        b"graph undirected\nnode a\nend\n",
        b"certificate 1\ncommand forests\nvalue 0\ndual none\nend\n",
        0,
    ),
    (
        "cuttree",
        b"graph undirected\nnode a\nend\n",
        b"certificate 1\ncommand cuttree\nend\n",
        0,
    ),
    // Graphs of two nodes have one cut, so their answers are the only ones.
    (
        "flow a b",
        b"graph undirected\nnode a\nnode b\nend\n",
        b"certificate 1\ncommand flow a b\nvalue 0\ndual cut\nset a\nend\n",
        0,
    ),
    (
        "flow a b",
        b"# one edge\r\n\r\ngraph\tundirected\r\nnode b\r\n  node a \r\nedge b a\r\nend",
        b"certificate 1\ncommand flow a b\nvalue 1\npath 1\ndual cut\nset a\nend\n",
        0,
    ),
    (
        "flow a b",
        b"graph directed\nnode a\nnode b\narc b a\nend\n# behind it\n",
        b"certificate 1\ncommand flow a b\nvalue 0\ndual cut\nset a\nend\n",
        0,
    ),
    (
        "flow a b",
        b"graph directed\nnode a\nnode b\narc b a\narc a b fixed\nend\n",
        b"certificate 1\ncommand flow a b\nvalue 1\npath 2\ndual cut\nset a\nend\n",
        0,
    ),
    (
        "flow end node",
        b"graph directed\nnode node\nnode end\narc end node\nend\n",
        b"certificate 1\ncommand flow end node\nvalue 1\npath 1\ndual cut\nset end\nend\n",
        0,
    ),
];

fn are_answered(
    rt: &impl Abort,
    alloc: Global,
    rows: &[(&str, &[u8], &[u8], u8)],
) -> Result<(), Fail> {
    for (words, input, text, number) in rows {
        let (written, status) = answer(alloc, words, input)?;
        same(rt, &(written.as_slice(), status), &(*text, *number), words);
    }
    Ok(())
}

#[test]
fn words_and_graphs_have_their_answers(rt: HostRuntime) -> Result<(), Fail> {
    are_answered(&rt, rt.alloc(), &WHOLE)
}

// Words, nodes, parallel edges, how the text begins and the exit number.
const LIMITS: [(&str, usize, usize, &[u8], u8); 3] = [
    (
        "flow n1 n2",
        128,
        2048,
        b"certificate 1\ncommand flow n1 n2\nvalue 2048\npath ",
        0,
    ),
    ("flow n1 n2", 128, 2049, b"large lines\n", 5),
    ("forests", 129, 0, b"large nodes\n", 5),
];

fn are_begun(
    rt: &impl Abort,
    alloc: Global,
    rows: &[(&str, usize, usize, &[u8], u8)],
) -> Result<(), Fail> {
    for (words, nodes, edges, start, number) in rows {
        let text = graph_text(alloc, *nodes, *edges)?;
        let (written, status) = answer(alloc, words, &text)?;
        let begins = written.starts_with(start);
        same(rt, &(begins, status), &(true, *number), words);
    }
    Ok(())
}

#[test]
fn the_limits_of_a_graph_text(rt: HostRuntime) -> Result<(), Fail> {
    are_begun(&rt, rt.alloc(), &LIMITS)
}

// 40 arcs may cost 100 each, and 41 may not.
#[test]
fn the_limit_of_costs(rt: HostRuntime) -> Result<(), Fail> {
    let alloc = rt.alloc();
    let mut text = b"graph directed\nnode a\nnode b\n".to_vec(alloc)?;
    for _ in 0..40 {
        text.extend_from_slice(b"arc a b cost 100\n")?;
    }
    let mut within = text.clone()?;
    within.extend_from_slice(b"end\n")?;
    let (certificate, status) = answer(alloc, "dijoin", &within)?;
    let begins = certificate.starts_with(b"certificate 1\ncommand dijoin\nvalue 100\njoin ");
    same(&rt, &(begins, status), &(true, 0), &"dijoin");
    let (said, _) = answer(alloc, "check", &joined(alloc, &within, &certificate)?)?;
    same(&rt, &said.as_slice(), &b"accepted\n".as_slice(), &"check");
    text.extend_from_slice(b"arc a b cost 100\nend\n")?;
    are_answered(
        &rt,
        alloc,
        &[("dijoin", text.as_slice(), b"large costs\n", 5)],
    )
}

// A comment of many bytes, of the most, and of one more.
const COMMENTS: [(usize, &[u8], u8); 3] = [
    (1_048_577, b"graph 2 header\n", 4),
    (33_554_432, b"graph 2 header\n", 4),
    (33_554_433, b"large bytes\n", 5),
];

fn comments_are_read(
    rt: &impl Abort,
    alloc: Global,
    rows: &[(usize, &[u8], u8)],
) -> Result<(), Fail> {
    for (length, text, number) in rows {
        let bytes = vec![in alloc; b'#'; *length]?;
        are_answered(rt, alloc, &[("forests", bytes.as_slice(), text, *number)])?;
    }
    Ok(())
}

#[test]
fn the_limit_of_bytes(rt: HostRuntime) -> Result<(), Fail> {
    comments_are_read(&rt, rt.alloc(), &COMMENTS)
}
