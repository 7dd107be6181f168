ghost use Rattle.std.specs.Prelude.{◌≡◌, ◌≢◌, IfSome, IfNone};
ghost use Rattle.problem_defs.specs.Verbs as verbs;
ghost use Rattle.problem_defs.specs.declared.verb.Verb as verb;

use crate::ask::Ask;

/// The first word of a command that asks something of a graph.
#[derive(Clone, Copy, Debug, PartialEq, Eq)]
pub enum Verb {
    Flow,
    CutTree,
    Augment,
    AugmentArcs,
    Arborescences,
    Trees,
    Forests,
    Orient,
    Dijoin,
}

// What a word is looked up in: each verb.
static VERBS: [Verb; 9] = [
    Verb::Flow,
    Verb::CutTree,
    Verb::Augment,
    Verb::AugmentArcs,
    Verb::Arborescences,
    Verb::Trees,
    Verb::Forests,
    Verb::Orient,
    Verb::Dijoin,
];

impl Verb {
    /// The verb of this word.
    pub fn named(word: &[u8]) -> Option<Verb>
        ensures found { IfSome result (λ v. word.now ≡ verbs.verb_word v) }
        ensures absent { IfNone result ((v : verb.Verb) → word.now ≢ verbs.verb_word v) }
    {
        for verb in &VERBS {
            if word == verb.word() {
                return Some(*verb);
            }
        }
        None
    }

    /// The verb's word.
    pub fn word(self) -> &'static [u8]
        ensures { result.now ≡ verbs.verb_word self }
    {
        match self {
            Verb::Flow => b"flow",
            Verb::CutTree => b"cuttree",
            Verb::Augment => b"augment",
            Verb::AugmentArcs => b"augment-arcs",
            Verb::Arborescences => b"arborescences",
            Verb::Trees => b"trees",
            Verb::Forests => b"forests",
            Verb::Orient => b"orient",
            Verb::Dijoin => b"dijoin",
        }
    }
}

impl Ask {
    /// The verb of the command that asks this.
    pub fn verb(self) -> Verb
        ensures { result ≡ verbs.verb_of self }
    {
        match self {
            Ask::Flow { .. } => Verb::Flow,
            Ask::CutTree => Verb::CutTree,
            Ask::Augment { .. } => Verb::Augment,
            Ask::AugmentArcs { .. } => Verb::AugmentArcs,
            Ask::Arborescences { .. } => Verb::Arborescences,
            Ask::Trees => Verb::Trees,
            Ask::Forests => Verb::Forests,
            Ask::Orient { .. } => Verb::Orient,
            Ask::Dijoin => Verb::Dijoin,
        }
    }
}
