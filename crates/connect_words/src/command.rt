ghost use Rattle.std.specs.Prelude.{◌≡◌, ◌≢◌, IfSome, IfNone};

/// The problem that a trial solves on a generated graph.
#[derive(Clone, Copy, Debug, PartialEq, Eq)]
pub enum TrialKind {
    Flow,
    Augment,
    AugmentArcs,
    Arborescences,
    Trees,
    Forests,
    Orient,
    Dijoin,
}

/// What the words of a command line say. The names of nodes stay in the words.
#[derive(Clone, Copy, Debug, PartialEq, Eq)]
pub enum Command {
    Flow,
    CutTree,
    Augment {
        k: u32,
    },
    AugmentArcs {
        k: u32,
    },
    Arborescences,
    Trees,
    Forests,
    Orient {
        k: u32,
    },
    Dijoin,
    Check,
    Trial {
        kind: TrialKind,
        nodes: u32,
        number: u32,
    },
}

/// The words are no command. The place of the first bad word is counted from 1.
#[derive(Clone, Copy, Debug, PartialEq, Eq)]
pub struct WordFault {
    pub place: usize,
}

impl TrialKind {
    ghost use Rattle.connect_words.specs.Commands.{kind_word};
    ghost use Rattle.connect_words.specs.declared.command.TrialKind.{TrialKind};

    /// The kind of this word.
    pub(crate) fn named(word: &str) -> Option<TrialKind>
        ensures found { IfSome result (λ kind. word.now ≡ kind_word kind) }
        ensures absent { IfNone result ((kind : TrialKind) → word.now ≢ kind_word kind) }
    {
        match word {
            "flow" => Some(TrialKind::Flow),
            "augment" => Some(TrialKind::Augment),
            "augment-arcs" => Some(TrialKind::AugmentArcs),
            "arborescences" => Some(TrialKind::Arborescences),
            "trees" => Some(TrialKind::Trees),
            "forests" => Some(TrialKind::Forests),
            "orient" => Some(TrialKind::Orient),
            "dijoin" => Some(TrialKind::Dijoin),
            _ => None,
        }
    }
}
