ghost use Rattle.std.specs.Prelude.{◌≡◌, ◌≤◌, None, length};
ghost use Rattle.graph_core.specs.Graph.{GraphValue};
ghost use Rattle.problem_defs.specs.Ask.{KIsInRange, misfit_of};
ghost use Rattle.connect_words.specs.Trials.{graph_kind, trial_ask};

use crate::TrialKind;
use graph_core::Kind;
use problem_defs::Ask;

/// The kind of graph that a trial generates.
pub fn graph_kind(kind: TrialKind) -> Kind
    ensures { result ≡ graph_kind kind }
{
    match kind {
        TrialKind::AugmentArcs | TrialKind::Arborescences | TrialKind::Dijoin => Kind::Directed,
        TrialKind::Flow
        | TrialKind::Augment
        | TrialKind::Trees
        | TrialKind::Forests
        | TrialKind::Orient => Kind::Undirected,
    }
}

/// What a trial asks of its graph of so many nodes. It suits each graph of this kind with these nodes.
pub fn trial_ask(kind: TrialKind, nodes: u32) -> Ask
    requires { 2 ≤ nodes }
    ensures ask { result ≡ trial_ask kind nodes }
    ensures k { KIsInRange result }
    ensures suits { (g : GraphValue) → g.kind ≡ graph_kind kind → length g.names ≡ nodes → misfit_of g result ≡ None }
{
    match kind {
        TrialKind::Flow => Ask::Flow {
            from: 0,
            to: nodes - 1,
        },
        TrialKind::Augment => Ask::Augment { k: 8 },
        TrialKind::AugmentArcs => Ask::AugmentArcs { k: 4 },
        TrialKind::Arborescences => Ask::Arborescences { root: 0 },
        TrialKind::Trees => Ask::Trees,
        TrialKind::Forests => Ask::Forests,
        TrialKind::Orient => Ask::Orient { k: 1 },
        TrialKind::Dijoin => Ask::Dijoin,
    }
}
