ghost use Rattle.std.specs.Prelude.{◌≡◌, Some, None, map, string_bytes, IsSomeAnd, IfOk};
ghost use Rattle.problem_defs.specs.Ask.{KIsInRange, misfit_of};
ghost use Rattle.connect_words.specs.Commands.{Solves, Writes};
ghost use Rattle.connect_words.specs.Asks.{asked, node_at, node_named, ask_or_misfit};

use crate::Command;
use crate::words::word_at;
use graph_core::Graph;
use problem_defs::{Ask, Misfit, unfit};

/// What the command with these words asks of the graph, where it suits the graph. It takes no memory.
pub fn ask_of(graph: &Graph, command: &Command, words: &[String]) -> Result<Ask, Misfit>
    requires solves { Solves command.now }
    requires written { Writes command.now (map string_bytes words.now) }
    ensures answer { IsSomeAnd (asked graph.now (map string_bytes words.now) command.now) (λ ask. result ≡ ask_or_misfit graph.now ask) }
    ensures suits { IfOk result (λ ask. KIsInRange ask × (misfit_of graph.now ask ≡ None)) }
{
    let ask = ask(graph, *command, words);
    match unfit(graph, &ask) {
        None => Ok(ask),
        Some(misfit) => Err(misfit),
    }
}

// The ask, with the number of nodes in the place of a node that no name of the graph names.
fn ask(graph: &Graph, command: Command, words: &[String]) -> Ask
    requires solves { Solves command }
    requires written { Writes command (map string_bytes words.now) }
    ensures asked { asked graph.now (map string_bytes words.now) command ≡ Some result }
    ensures limits { KIsInRange result }
{
    match command {
        Command::Flow => Ask::Flow {
            from: node_at(graph, words, 1),
            to: node_at(graph, words, 2),
        },
        Command::CutTree => Ask::CutTree,
        Command::Augment { k } => Ask::Augment { k },
        Command::AugmentArcs { k } => Ask::AugmentArcs { k },
        Command::Arborescences => Ask::Arborescences {
            root: node_at(graph, words, 1),
        },
        Command::Trees => Ask::Trees,
        Command::Forests => Ask::Forests,
        Command::Orient { k } => Ask::Orient { k },
        Command::Dijoin => Ask::Dijoin,
        Command::Check | Command::Trial { .. } => unreachable!(),
    }
}

// The node whose name is the word at the place, or the number of nodes.
fn node_at(graph: &Graph, words: &[String], at: usize) -> u32
    ensures { result ≡ node_at graph.now (map string_bytes words.now) at }
{
    match word_at(words, at) {
        Some(word) => node_named(graph, word.as_bytes()),
        None => node_named(graph, b""),
    }
}

// The node of this name, or the number of nodes.
fn node_named(graph: &Graph, name: &[u8]) -> u32
    ensures { result ≡ node_named graph.now name.now }
{
    graph.known();
    match graph.find(name) {
        Some(node) => node,
        None => graph.node_count() as u32,
    }
}
