//! Runs of the program, and texts that are made for them.

ghost use Rattle.std.specs.Prelude.{◌≤◌};

use cn_edge::{MemSink, MemSource};
use connect_run::{Status, connect_run};
use std::alloc::{AllocError, Global};
use std::fmt::Debug;
use std::process::Abort;

/// How many bytes a call reads and a call writes at most, and how many are written at most.
#[derive(Clone, Copy)]
pub struct Sizes {
    pub read: usize,
    pub write: usize,
    pub room: usize,
}

const AMPLE: Sizes = Sizes {
    read: 4096,
    write: 4096,
    room: 65536,
};

/// The words that stand between blanks.
pub fn words_of(alloc: Global, words: &str) -> Result<Vec<String>, AllocError> {
    let mut list = Vec::new(alloc);
    for word in words.split_whitespace() {
        list.push(String::from_str(alloc, word)?)?;
    }
    Ok(list)
}

/// What is written, and the status. The words stand between blanks. A call of source or sink fails where its plan says so.
pub fn run(
    alloc: Global,
    words: &str,
    input: &[u8],
    sizes: Sizes,
    reads: &[bool],
    writes: &[bool],
) -> Result<(Vec<u8>, Status), AllocError>
    requires read { 1 ≤ sizes.read }
    requires write { 1 ≤ sizes.write }
{
    let list = words_of(alloc, words)?;
    let mut source = MemSource::new(input, sizes.read, reads);
    let mut sink = MemSink::new(vec![in alloc; 0u8; sizes.room]?, sizes.write, writes);
    let status = connect_run(alloc, &list, &mut source, &mut sink);
    Ok((Vec::from_slice(alloc, sink.bytes())?, status))
}

/// The text that is written, and the exit number.
pub fn answer(alloc: Global, words: &str, input: &[u8]) -> Result<(Vec<u8>, u8), AllocError> {
    let (written, status) = run(alloc, words, input, AMPLE, &[], &[])?;
    Ok((written, status.exit_number()))
}

/// Asserts that what was found is what is wanted, in the row that `row` names. It is proved once for all tests.
pub fn same<T: PartialEq + Debug, R: Debug>(rt: &impl Abort, found: &T, want: &T, row: &R) {
    assert_eq!(rt; found, want, "in {row:?}");
}

pub fn joined(alloc: Global, graph: &[u8], rest: &[u8]) -> Result<Vec<u8>, AllocError> {
    let mut input = Vec::from_slice(alloc, graph)?;
    input.extend_from_slice(rest)?;
    Ok(input)
}

/// Nodes n1, n2 and so on, and parallel edges between the first two.
pub fn graph_text(alloc: Global, nodes: usize, edges: usize) -> Result<Vec<u8>, AllocError> {
    let mut text = Vec::from_slice(alloc, b"graph undirected\n")?;
    for i in 0..nodes {
        text.extend_from_slice(format!(in alloc; "node n{}\n", i + 1)?.as_bytes())?;
    }
    for _ in 0..edges {
        text.extend_from_slice(b"edge n1 n2\n")?;
    }
    text.extend_from_slice(b"end\n")?;
    Ok(text)
}
