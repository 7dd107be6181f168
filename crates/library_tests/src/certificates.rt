//! Certificates of every command are read and written, and bad ones have their line.

use crate::asserts::same;
use certificate_text::{CertRefusal, read_cert, write_cert};
use graph_core::{Graph, NoMemory};
use std::alloc::Global;
use std::process::Abort;
use std::test::Fail;
use test_graphs::{ARC, BACKBONE, COMPLETE, EDGE, K4, PATH, graph_of};

// A graph, what is read as a certificate, and the first bad line; 0 where there is none.
const TEXTS: [(&[u8], &str, usize); 42] = [
    (
        EDGE,
        "certificate 1\ncommand flow b a\nvalue 0\npath\npath 1 1\ndual cut\nset\nend\nend\n",
        0,
    ),
    (EDGE, "", 1),
    (EDGE, "certificate 1", 1),
    (EDGE, "certificate 2\n", 1),
    (EDGE, "certificate  1\n", 1),
    (EDGE, "certificate 1 \n", 1),
    (EDGE, " certificate 1\n", 1),
    (EDGE, "certificate 1\r\n", 1),
    (EDGE, "command cuttree\nend\n", 1),
    (EDGE, "certificate 1\n", 2),
    (EDGE, "certificate 1\ncommand dijoin\n", 2),
    (EDGE, "certificate 1\ncommand flow a c\n", 2),
    (EDGE, "certificate 1\ncommand flow a a\n", 2),
    (EDGE, "certificate 1\ncommand flow a b b\n", 2),
    (EDGE, "certificate 1\ncommand augment 0\n", 2),
    (EDGE, "certificate 1\ncommand augment 33\n", 2),
    (EDGE, "certificate 1\ncommand augment 02\n", 2),
    (EDGE, "certificate 1\ncommand trees\nvalue 01\n", 3),
    (EDGE, "certificate 1\ncommand trees\nvalue +1\n", 3),
    (
        EDGE,
        "certificate 1\ncommand trees\nvalue 18446744073709551616\n",
        3,
    ),
    (
        EDGE,
        "certificate 1\ncommand trees\nvalue 18446744073709551615\n",
        4,
    ),
    (EDGE, "certificate 1\ncommand trees\nimpossible\n", 3),
    (EDGE, "certificate 1\ncommand trees\nvalue 1\npath 1\n", 4),
    (EDGE, "certificate 1\ncommand trees\nvalue 1\npart 0\n", 4),
    (EDGE, "certificate 1\ncommand trees\nvalue 1\npart 2\n", 4),
    (EDGE, "certificate 1\ncommand trees\nvalue 1\npart 1 1\n", 5),
    (EDGE, "certificate 1\ncommand trees\nvalue 1\ndual cut\n", 4),
    (
        EDGE,
        "certificate 1\ncommand trees\nvalue 1\ndual partition\nset b a\nend\n",
        5,
    ),
    (
        EDGE,
        "certificate 1\ncommand trees\nvalue 1\ndual partition\nset a a\nend\n",
        5,
    ),
    (
        EDGE,
        "certificate 1\ncommand trees\nvalue 1\ndual partition\nset c\nend\n",
        5,
    ),
    (
        EDGE,
        "certificate 1\ncommand trees\nvalue 1\ndual partition\nset a\nset b\n",
        7,
    ),
    (
        EDGE,
        "certificate 1\ncommand flow a b\nvalue 1\ndual cut\nend\n",
        5,
    ),
    (
        EDGE,
        "certificate 1\ncommand flow a b\nvalue 1\ndual cut\nset a\nset b\nend\n",
        6,
    ),
    (EDGE, "certificate 1\ncommand orient 1\nend\n", 3),
    (
        EDGE,
        "certificate 1\ncommand orient 1\narc a b\narc a b\nend\n",
        4,
    ),
    (
        EDGE,
        "certificate 1\ncommand augment 1\nvalue 0\ndual subpartition\nend\n",
        4,
    ),
    (EDGE, "certificate 1\ncommand cuttree\ntree a b\nend\n", 3),
    (
        ARC,
        "certificate 1\ncommand augment-arcs 1\nvalue 1\narc b a\ndual in\nset a\nend\n",
        0,
    ),
    (
        ARC,
        "certificate 1\ncommand dijoin\nvalue 0\njoin\ndual dicuts\nend\n",
        0,
    ),
    (
        ARC,
        "certificate 1\ncommand dijoin\nvalue 1\njoin 1\njoin 1\n",
        5,
    ),
    (
        ARC,
        "certificate 1\ncommand dijoin\nvalue 1\ndual dicuts\nend\n",
        4,
    ),
    (ARC, "certificate 1\ncommand trees\nvalue 0\n", 2),
];

// How many bytes of the text are a certificate. Where it is written otherwise than it stands, no line of it is bad.
fn read_again(alloc: Global, graph: &Graph, text: &[u8]) -> Result<usize, CertRefusal> {
    let (cert, count) = read_cert(alloc, graph, text)?;
    match write_cert(alloc, graph, &cert) {
        Ok(written) => {
            if count == written.len() && text.starts_with(written.as_slice()) {
                Ok(count)
            } else {
                Err(CertRefusal::Bad { line: usize::MAX })
            }
        }
        Err(NoMemory) => Err(CertRefusal::NoMemory),
    }
}

// The first bad line, or 0.
fn bad_line(alloc: Global, graph: &Graph, text: &[u8]) -> Result<usize, CertRefusal> {
    match read_again(alloc, graph, text) {
        Ok(_) => Ok(0),
        Err(CertRefusal::Bad { line }) => Ok(line),
        Err(refusal) => Err(refusal),
    }
}

fn are_read_or_bad(
    rt: &impl Abort,
    alloc: Global,
    rows: &[(&[u8], &str, usize)],
) -> Result<(), Fail> {
    for (graph, text, line) in rows {
        let graph = graph_of(alloc, graph)?;
        same(
            rt,
            &bad_line(alloc, &graph, text.as_bytes()),
            &Ok(*line),
            text,
        );
    }
    Ok(())
}

#[test]
fn texts_of_two_nodes_are_read_or_bad_at_a_line(rt: HostRuntime) -> Result<(), Fail> {
    are_read_or_bad(&rt, rt.alloc(), &TEXTS)
}

const ISOLATED: &[u8] = b"graph undirected\nnode a\nnode b\nnode c\nnode d\nend\n";

const STAR: &[u8] = b"graph directed\nnode a\nnode b\nnode c\narc a b\narc a c\nend\n";

const INTO: &[u8] = b"graph directed\nnode x\nnode y\nnode z\narc x y\narc z y\nend\n";

const FIXED: &[u8] = b"graph directed\nnode a\nnode b\narc a b fixed\nend\n";

// A graph and a certificate for it.
const CERTIFICATES: [(&[u8], &[u8]); 13] = [
    (
        PATH,
        b"certificate 1\ncommand flow a c\nvalue 1\npath 1 2\ndual cut\nset a b\nend\n",
    ),
    (
        BACKBONE,
        b"certificate 1\ncommand cuttree\ntree s1 s2 3\ntree s1 s3 3\ntree s1 s4 3\ntree s1 s5 2\ntree s1 s6 2\ntree s1 s7 3\ntree s1 s8 3\ntree s1 s9 3\ntree s1 s10 3\ntree s1 s11 2\ntree s1 s12 2\nend\n",
    ),
    (
        BACKBONE,
        b"certificate 1\ncommand augment 3\nvalue 2\nedge s5 s11\nedge s6 s12\ndual subpartition\nset s5\nset s6\nset s11\nset s12\nend\n",
    ),
    (
        ISOLATED,
        b"certificate 1\ncommand augment 1\nvalue 3\nedge a b\nedge b c\nedge c d\ndual components\nset a\nset b\nset c\nset d\nend\n",
    ),
    (
        STAR,
        b"certificate 1\ncommand augment-arcs 1\nvalue 2\narc b a\narc c a\ndual out\nset b\nset c\nend\n",
    ),
    (
        COMPLETE,
        b"certificate 1\ncommand arborescences a\nvalue 2\npart 1 4\npart 2 6\ndual cut\nset b\nend\n",
    ),
    (
        K4,
        b"certificate 1\ncommand trees\nvalue 2\npart 1 4 6\npart 2 3 5\ndual partition\nset a\nset b\nset c\nset d\nend\n",
    ),
    (
        K4,
        b"certificate 1\ncommand forests\nvalue 2\npart 1 4 6\npart 2 3 5\ndual set\nset a b c d\nend\n",
    ),
    (
        ISOLATED,
        b"certificate 1\ncommand forests\nvalue 0\ndual none\nend\n",
    ),
    (
        EDGE,
        b"certificate 1\ncommand orient 1\nimpossible\ndual cut\nset a\nend\n",
    ),
    (
        K4,
        b"certificate 1\ncommand orient 1\narc a b\narc c a\narc a d\narc b c\narc d b\narc c d\nend\n",
    ),
    (
        INTO,
        b"certificate 1\ncommand dijoin\nvalue 2\njoin 1 2\ndual dicuts\nset x y\nset y z\nend\n",
    ),
    (
        FIXED,
        b"certificate 1\ncommand dijoin\nimpossible\ndual dicut\nset b\nend\n",
    ),
];

// Reads the text, whatever follows it. Cut anywhere, it is bad at the line that the cut left.
fn comes_back(rt: &impl Abort, alloc: Global, graph: &Graph, text: &[u8]) -> Result<(), Fail> {
    let mut more = Vec::from_slice(alloc, text)?;
    more.extend_from_slice(b"end\n")?;
    same(rt, &read_again(alloc, graph, &more), &Ok(text.len()), &text);
    let mut line: usize = 1;
    for (count, byte) in text.iter().enumerate() {
        same(
            rt,
            &bad_line(alloc, graph, &text[..count]),
            &Ok(line),
            &count,
        );
        if *byte == b'\n' {
            line = line.wrapping_add(1);
        }
    }
    Ok(())
}

fn all_come_back(rt: &impl Abort, alloc: Global, rows: &[(&[u8], &[u8])]) -> Result<(), Fail> {
    for (graph, text) in rows {
        comes_back(rt, alloc, &graph_of(alloc, graph)?, text)?;
    }
    Ok(())
}

#[test]
fn certificates_of_every_command_are_read_and_written(rt: HostRuntime) -> Result<(), Fail> {
    all_come_back(&rt, rt.alloc(), &CERTIFICATES)
}
