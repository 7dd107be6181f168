//! Commands, places and asks, worked out from the table of commands.

use crate::asserts::same;
use connect_words::{Command, TrialKind, WordFault, ask_of, read_words};
use graph_core::Graph;
use problem_defs::{Ask, Misfit};
use std::alloc::{AllocError, Global};
use std::process::Abort;
use std::test::Fail;
use test_graphs::{ARC, EDGE, ONE_NODE, ONE_NODE_OF_ARCS, graph_of};

/// The words of a line, with one space between two words.
fn words(alloc: Global, line: &str) -> Result<Vec<String>, AllocError> {
    let mut words = Vec::new(alloc);
    for word in line.split(' ') {
        words.push(String::from_str(alloc, word)?)?;
    }
    Ok(words)
}

// Lines whose words are a command.
const COMMANDS: [(&str, Command); 13] = [
    ("flow a b", Command::Flow),
    ("flow  ", Command::Flow),
    ("flow caf\u{e9} flow", Command::Flow),
    ("cuttree", Command::CutTree),
    ("augment 1", Command::Augment { k: 1 }),
    ("augment 32", Command::Augment { k: 32 }),
    ("augment-arcs 10", Command::AugmentArcs { k: 10 }),
    ("arborescences r", Command::Arborescences),
    ("trees", Command::Trees),
    ("forests", Command::Forests),
    ("orient 7", Command::Orient { k: 7 }),
    ("dijoin", Command::Dijoin),
    ("check", Command::Check),
];

// Lines whose words are a trial: its kind, how many nodes, and its number.
const TRIALS: [(&str, TrialKind, u32, u32); 8] = [
    ("trial flow 2 0", TrialKind::Flow, 2, 0),
    (
        "trial augment 128 4294967295",
        TrialKind::Augment,
        128,
        u32::MAX,
    ),
    ("trial augment-arcs 40 7", TrialKind::AugmentArcs, 40, 7),
    ("trial arborescences 40 7", TrialKind::Arborescences, 40, 7),
    ("trial trees 40 7", TrialKind::Trees, 40, 7),
    ("trial forests 40 7", TrialKind::Forests, 40, 7),
    ("trial orient 40 7", TrialKind::Orient, 40, 7),
    ("trial dijoin 40 7", TrialKind::Dijoin, 40, 7),
];

// Lines whose words have their first fault at a place.
const FAULTS: [(&str, usize); 43] = [
    ("", 1),
    ("flows", 1),
    ("Flow", 1),
    ("caf\u{e9}", 1),
    ("1", 1),
    ("flow", 2),
    ("cuttree x", 2),
    ("augment", 2),
    ("augment ", 2),
    ("augment 0", 2),
    ("augment 00", 2),
    ("augment 02", 2),
    ("augment 33", 2),
    ("augment +2", 2),
    ("augment -2", 2),
    ("augment 2x", 2),
    ("augment \u{663}", 2),
    ("augment 4294967298", 2),
    ("augment-arcs 33", 2),
    ("orient 0", 2),
    ("arborescences", 2),
    ("trees trees", 2),
    ("forests ", 2),
    ("dijoin 1", 2),
    ("check check", 2),
    ("trial", 2),
    ("trial cuttree 2 0", 2),
    ("trial check 2 0", 2),
    ("flow a", 3),
    ("augment 2 ", 3),
    ("arborescences a b", 3),
    ("trial flow", 3),
    ("trial flow 1 0", 3),
    ("trial flow 129 0", 3),
    ("trial flow 02 0", 3),
    ("trial flow  0", 3),
    ("flow a b c", 4),
    ("trial flow 2", 4),
    ("trial flow 2 4294967296", 4),
    ("trial flow 2 00", 4),
    ("trial flow 2 ", 4),
    ("trial flow 2 -0", 4),
    ("trial flow 2 0 0", 5),
];

fn are_read(rt: &impl Abort, alloc: Global, rows: &[(&str, Command)]) -> Result<(), Fail> {
    for (line, command) in rows {
        same(rt, &read_words(&words(alloc, line)?), &Ok(*command), line);
    }
    Ok(())
}

fn are_trials(
    rt: &impl Abort,
    alloc: Global,
    rows: &[(&str, TrialKind, u32, u32)],
) -> Result<(), Fail> {
    for (line, kind, nodes, number) in rows {
        let trial = Command::Trial {
            kind: *kind,
            nodes: *nodes,
            number: *number,
        };
        same(rt, &read_words(&words(alloc, line)?), &Ok(trial), line);
    }
    Ok(())
}

fn are_bad(rt: &impl Abort, alloc: Global, rows: &[(&str, usize)]) -> Result<(), Fail> {
    for (line, place) in rows {
        let fault = WordFault { place: *place };
        same(rt, &read_words(&words(alloc, line)?), &Err(fault), line);
    }
    Ok(())
}

#[test]
fn words_are_a_command_or_have_a_first_bad_place(rt: HostRuntime) -> Result<(), Fail> {
    are_read(&rt, rt.alloc(), &COMMANDS)?;
    are_trials(&rt, rt.alloc(), &TRIALS)?;
    are_bad(&rt, rt.alloc(), &FAULTS)?;
    let fault = WordFault { place: 1 };
    same(&rt, &read_words(&[]), &Err(fault), &"no word");
    Ok(())
}

// A graph, a command, and what it asks.
const ASKS: [(&[u8], &str, Result<Ask, Misfit>); 26] = [
    (EDGE, "flow a b", Ok(Ask::Flow { from: 0, to: 1 })),
    (ARC, "flow b a", Ok(Ask::Flow { from: 1, to: 0 })),
    (EDGE, "flow a q", Err(Misfit::Node)),
    (EDGE, "flow q q", Err(Misfit::Node)),
    (EDGE, "flow a ", Err(Misfit::Node)),
    (EDGE, "flow a a", Err(Misfit::Same)),
    (ONE_NODE, "flow a a", Err(Misfit::Same)),
    (EDGE, "cuttree", Ok(Ask::CutTree)),
    (ARC, "cuttree", Err(Misfit::Kind)),
    (EDGE, "augment 3", Ok(Ask::Augment { k: 3 })),
    (ARC, "augment 3", Err(Misfit::Kind)),
    (ARC, "augment-arcs 32", Ok(Ask::AugmentArcs { k: 32 })),
    (EDGE, "augment-arcs 32", Err(Misfit::Kind)),
    (ARC, "arborescences b", Ok(Ask::Arborescences { root: 1 })),
    (EDGE, "arborescences q", Err(Misfit::Kind)),
    (ARC, "arborescences q", Err(Misfit::Node)),
    (ONE_NODE_OF_ARCS, "arborescences q", Err(Misfit::Node)),
    (ONE_NODE_OF_ARCS, "arborescences a", Err(Misfit::Small)),
    (EDGE, "trees", Ok(Ask::Trees)),
    (ARC, "trees", Err(Misfit::Kind)),
    (ONE_NODE, "trees", Err(Misfit::Small)),
    (ONE_NODE_OF_ARCS, "trees", Err(Misfit::Kind)),
    (ONE_NODE, "forests", Ok(Ask::Forests)),
    (EDGE, "orient 2", Ok(Ask::Orient { k: 2 })),
    (ARC, "dijoin", Ok(Ask::Dijoin)),
    (EDGE, "dijoin", Err(Misfit::Kind)),
];

fn asked(graph: &Graph, words: &[String]) -> Option<Result<Ask, Misfit>> {
    match read_words(words) {
        Ok(Command::Check | Command::Trial { .. }) | Err(_) => None,
        Ok(command) => Some(ask_of(graph, &command, words)),
    }
}

fn are_asked(
    rt: &impl Abort,
    alloc: Global,
    rows: &[(&[u8], &str, Result<Ask, Misfit>)],
) -> Result<(), Fail> {
    for (text, line, ask) in rows {
        let graph = graph_of(alloc, text)?;
        let words = words(alloc, line)?;
        same(rt, &asked(&graph, &words), &Some(*ask), line);
    }
    Ok(())
}

#[test]
fn an_ask_names_nodes_or_has_its_first_misfit(rt: HostRuntime) -> Result<(), Fail> {
    are_asked(&rt, rt.alloc(), &ASKS)
}
