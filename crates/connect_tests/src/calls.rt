//! The calls behind a command, made one by one.

use crate::examples::{INTO_ONE, ONE_NODE};
use crate::run::{answer, same, words_of};
use certificate_text::write_cert;
use connect_run::solve;
use connect_words::{Command, ask_of, read_words};
use problem_defs::unfit;
use std::alloc::Global;
use std::process::Abort;
use std::test::Fail;
use test_graphs::{COMPLETE, EDGE, K4, OUT_STAR, PATH, SQUARE, graph_of};

// Words and a graph that they suit, for each command that solves.
const ROWS: [(&str, &[u8]); 11] = [
    ("flow a d", SQUARE),
    ("cuttree", SQUARE),
    ("augment 1", ONE_NODE),
    ("augment 2", PATH),
    ("augment-arcs 1", OUT_STAR),
    ("arborescences a", COMPLETE),
    ("trees", K4),
    ("forests", K4),
    ("orient 1", SQUARE),
    ("orient 1", EDGE),
    ("dijoin", INTO_ONE),
];

/// The text of the certificate that is solved for what the words ask of the graph.
fn solved_text(alloc: Global, words: &str, text: &[u8]) -> Result<Vec<u8>, Fail> {
    let graph = graph_of(alloc, text)?;
    let words = words_of(alloc, words)?;
    let Ok(command) = read_words(&words) else {
        return Err("the words are no command".into());
    };
    match command {
        Command::Check | Command::Trial { .. } => return Err("nothing is to be solved".into()),
        _ => {}
    }
    let Ok(ask) = ask_of(&graph, &command, &words) else {
        return Err("the ask doesn't suit the graph".into());
    };
    if unfit(&graph, &ask).is_some() {
        return Err("the ask doesn't suit the graph".into());
    }
    let cert = solve(alloc, &graph, &ask)?;
    Ok(write_cert(alloc, &graph, &cert)?)
}

fn are_solved(rt: &impl Abort, alloc: Global, rows: &[(&str, &[u8])]) -> Result<(), Fail> {
    for (words, graph) in rows {
        let text = solved_text(alloc, words, graph)?;
        let (written, _) = answer(alloc, words, graph)?;
        same(rt, &text.as_slice(), &written.as_slice(), words);
    }
    Ok(())
}

#[test]
fn each_command_writes_what_is_solved(rt: HostRuntime) -> Result<(), Fail> {
    are_solved(&rt, rt.alloc(), &ROWS)
}
