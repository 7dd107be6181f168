ghost use Rattle.std.specs.Prelude.{◌≡◌, ◌≤◌};
ghost use Rattle.problem_defs.specs.Ask.{misfit_of, KIsInRange};

use graph_core::Graph;
use graph_core::Kind::{Directed, Undirected};

/// What is asked of a graph.
#[derive(Clone, Copy, Debug, PartialEq, Eq)]
pub enum Ask {
    Flow { from: u32, to: u32 },
    CutTree,
    Augment { k: u32 },
    AugmentArcs { k: u32 },
    Arborescences { root: u32 },
    Trees,
    Forests,
    Orient { k: u32 },
    Dijoin,
}

/// Why an ask doesn't suit a graph.
#[derive(Clone, Copy, Debug, PartialEq, Eq)]
pub enum Misfit {
    /// A digraph is asked for and the graph is undirected, or the other way round.
    Kind,
    /// A node that the graph doesn't have.
    Node,
    /// Two nodes that have to be different are the same.
    Same,
    /// The graph has one node alone.
    Small,
}

/// The first reason for which the ask doesn't suit the graph.
pub fn unfit(graph: &Graph, ask: &Ask) -> Option<Misfit>
    requires { KIsInRange ask.now }
    ensures { result ≡ misfit_of graph.now ask.now }
{
    let directed = graph.kind() == Directed;
    let n = graph.node_count();
    let wrong_kind = match ask {
        Ask::Flow { .. } => false,
        Ask::CutTree | Ask::Augment { .. } | Ask::Trees | Ask::Forests | Ask::Orient { .. } =>
            directed,
        Ask::AugmentArcs { .. } | Ask::Arborescences { .. } | Ask::Dijoin => !directed,
    };
    if wrong_kind {
        return Some(Misfit::Kind);
    }
    match *ask {
        Ask::Flow { from, to } => {
            if from as usize >= n || to as usize >= n {
                Some(Misfit::Node)
            } else if from == to {
                Some(Misfit::Same)
            } else {
                None
            }
        }
        Ask::Arborescences { root } => {
            if root as usize >= n {
                Some(Misfit::Node)
            } else if n == 1 {
                Some(Misfit::Small)
            } else {
                None
            }
        }
        Ask::Trees => { if n == 1 { Some(Misfit::Small) } else { None } }
        _ => None,
    }
}
