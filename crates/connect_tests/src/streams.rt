use crate::run::{Sizes, run, same};
use connect_run::Status;
use std::alloc::Global;
use std::process::Abort;
use std::test::Fail;
use test_graphs::{EDGE, OUT_STAR, PATH, TRIANGLE};

// No edges join the two nodes.
const INPUT: &[u8] = b"graph undirected\nnode a\nnode b\nend\n";

// Words, which reads and which writes fail, the sink's room, the status and what is written.
type Fault<'a> = (&'a str, &'a [bool], &'a [bool], usize, Status, &'a [u8]);

const FAULTS: [Fault<'static>; 5] = [
    ("flow a b", &[false, true], &[], 64, Status::ReadFault, b""),
    (
        "flow a b",
        &[],
        &[false, true],
        64,
        Status::WriteFault,
        b"certific",
    ),
    ("flow a b", &[], &[], 10, Status::WriteFault, b"certificat"),
    // A source that would fail isn't asked.
    ("flow a", &[true], &[], 64, Status::BadWords, b"words 3\n"),
    (
        "trial trees 2 0",
        &[true],
        &[],
        64,
        Status::Done,
        b"value 7\n",
    ),
];

fn are_told(rt: &impl Abort, alloc: Global, rows: &[Fault<'_>]) -> Result<(), Fail> {
    for (words, reads, writes, room, told, text) in rows {
        let sizes = Sizes {
            read: 16,
            write: 8,
            room: *room,
        };
        let (written, status) = run(alloc, words, INPUT, sizes, reads, writes)?;
        same(rt, &(status, written.as_slice()), &(*told, *text), words);
    }
    Ok(())
}

#[test]
fn faults_of_source_and_sink_are_told(rt: HostRuntime) -> Result<(), Fail> {
    are_told(&rt, rt.alloc(), &FAULTS)
}

// The last call of the plan fails.
const PLAN: [bool; 5] = [false, false, false, false, true];

// Words and input, of each command and of each kind of answer.
const RUNS: [(&str, &[u8]); 14] = [
    ("flow a b", INPUT),
    ("flow a a", INPUT),
    ("cuttree", INPUT),
    ("forests", INPUT),
    ("trees", EDGE),
    ("augment 2", PATH),
    ("augment-arcs 1", OUT_STAR),
    ("orient 1", TRIANGLE),
    ("orient 1", EDGE),
    (
        "arborescences a",
        b"graph directed\nnode a\nnode b\narc a b\nend\n",
    ),
    (
        "flow a b",
        b"graph directed\nnode a\nnode b\narc a b\narc a b\nend\n",
    ),
    ("cuttree", b"graph undirected\nnode a\nnode a\nend\n"),
    (
        "check",
        b"graph undirected\nnode a\nnode b\nend\ncertificate 1\ncommand cuttree\ntree a b 0\nend\n",
    ),
    (
        "check",
        b"graph undirected\nnode a\nnode b\nend\ncertificate 1\ncommand cuttree\nend\n",
    ),
];

const SMALL: Sizes = Sizes {
    read: 32,
    write: 24,
    room: 120,
};

// Each call that is made fails in its turn; the plan's later ends are past the last call.
fn each_is_told(rt: &impl Abort, alloc: Global, words: &str, input: &[u8]) -> Result<(), Fail> {
    let (text, status) = run(alloc, words, input, SMALL, &[], &[])?;
    for count in 0..5 {
        let plan = &PLAN[4 - count..];
        // The call behind the input's last byte sees its end.
        let (told, size) = if 32 * count < input.len().saturating_add(32) {
            (Status::ReadFault, 0)
        } else {
            (status, text.len())
        };
        let (written, ended) = run(alloc, words, input, SMALL, plan, &[])?;
        same(
            rt,
            &(ended, written.len()),
            &(told, size),
            &(words, "read", count),
        );
        let (told, size) = if 24 * count < text.len() {
            (Status::WriteFault, 24 * count)
        } else {
            (status, text.len())
        };
        let (written, ended) = run(alloc, words, input, SMALL, &[], plan)?;
        same(
            rt,
            &(ended, written.len()),
            &(told, size),
            &(words, "write", count),
        );
        same(
            rt,
            &text.starts_with(&written),
            &true,
            &(words, "write", count),
        );
    }
    Ok(())
}

fn all_are_told(rt: &impl Abort, alloc: Global, rows: &[(&str, &[u8])]) -> Result<(), Fail> {
    for (words, input) in rows {
        each_is_told(rt, alloc, words, input)?;
    }
    Ok(())
}

#[test]
fn a_fault_of_each_read_and_each_write_is_told(rt: HostRuntime) -> Result<(), Fail> {
    all_are_told(&rt, rt.alloc(), &RUNS)
}
