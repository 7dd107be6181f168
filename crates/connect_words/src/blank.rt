ghost use Rattle.std.specs.Prelude.{◌≡◌, ◌≢◌, ◌↔◌, IsTrue, IfSome, IfNone};
ghost use Rattle.connect_words.specs.Blanks.{blanks_of};

use crate::TrialKind;
use crate::number::is_number;
use problem_defs::Verb;

/// The greatest k of a command.
const MOST_K: u32 = 32;

/// The most nodes of a trial.
const MOST_NODES: u32 = 128;

/// The first word of a command.
#[derive(Clone, Copy, Debug, PartialEq, Eq)]
pub enum FirstWord {
    Asks(Verb),
    Check,
    Trial,
}

/// What stands behind the first word.
#[derive(Clone, Copy, Debug, PartialEq, Eq)]
pub enum Blank {
    Name,
    Kind,
    K,
    Nodes,
    Number,
}

impl FirstWord {
    ghost use Rattle.connect_words.specs.Blanks.{first_word, blanks};
    ghost use Rattle.connect_words.specs.declared.blank.FirstWord.{FirstWord};

    /// The command of this first word.
    pub fn named(word: &str) -> Option<FirstWord>
        ensures found { IfSome result (λ first. word.now ≡ first_word first) }
        ensures absent { IfNone result ((first : FirstWord) → word.now ≢ first_word first) }
    {
        match word {
            "check" => Some(FirstWord::Check),
            "trial" => Some(FirstWord::Trial),
            _ => match Verb::named(word.as_bytes()) {
                Some(verb) => Some(FirstWord::Asks(verb)),
                None => None,
            },
        }
    }

    /// What stands behind it.
    pub fn blanks(self) -> &'static [Blank]
        ensures { result.now ≡ blanks self }
    {
        match self {
            FirstWord::Asks(verb) => blanks_of(verb),
            FirstWord::Check => &[],
            FirstWord::Trial => &[Blank::Kind, Blank::Nodes, Blank::Number],
        }
    }
}

// What stands behind a verb.
fn blanks_of(verb: Verb) -> &'static [Blank]
    ensures { result.now ≡ blanks_of verb }
{
    match verb {
        Verb::Flow => &[Blank::Name, Blank::Name],
        Verb::Arborescences => &[Blank::Name],
        Verb::Augment | Verb::AugmentArcs | Verb::Orient => &[Blank::K],
        Verb::CutTree | Verb::Trees | Verb::Forests | Verb::Dijoin => &[],
    }
}

impl Blank {
    ghost use Rattle.connect_words.specs.Blanks.{MayStand};

    /// Whether the word may stand here.
    pub fn may_stand(self, word: &str) -> bool
        ensures { IsTrue result ↔ MayStand self word.now }
    {
        match self {
            Blank::Name => true,
            Blank::Kind => TrialKind::named(word).is_some(),
            Blank::K => is_number(word, 1, MOST_K),
            Blank::Nodes => is_number(word, 2, MOST_NODES),
            Blank::Number => is_number(word, 0, u32::MAX),
        }
    }
}
