ghost use Rattle.std.specs.Prelude.{◌≡◌, ◌≢◌, ◌↔◌, ℕ, ◌+◌, ◌<◌, ◌≤◌, Some, None, length, map, slice_get, string_bytes, IsTrue, IfOk, IfErr, IfSome, IfNone, MatchOption};
ghost use Rattle.connect_words.specs.Commands.{Writes};
ghost use Rattle.connect_words.specs.Places.{IsFirstBadPlace};
ghost use Rattle.connect_words.specs.Blanks.{first_word, first_of, Takes, Reads, ReadsNumber, ReadsKind};
ghost use Rattle.connect_words.specs.declared.blank.FirstWord as firsts;
ghost use Rattle.connect_words.specs.declared.blank.FirstWord.TheVariants.{Asks};

use crate::blank::{Blank, FirstWord};
use crate::number::number;
use crate::{Command, TrialKind, WordFault};
use problem_defs::Verb;

/// The command that the words write. It takes no memory.
pub fn read_words(words: &[String]) -> Result<Command, WordFault>
    ensures command { IfOk result (λ command. Writes command (map string_bytes words.now)) }
    ensures fault { IfErr result (λ fault. IsFirstBadPlace (map string_bytes words.now) fault.place) }
{
    let Some(first) = first_named(words) else {
        return Err(WordFault { place: 1 });
    };
    let blanks = first.blanks();
    let filled = filled(blanks, words);
    if filled < blanks.len() || blanks.len() + 1 < words.len() {
        return Err(WordFault { place: filled + 2 });
    }
    Ok(command(first, words))
}

// The first word, where it is that of a command.
fn first_named(words: &[String]) -> Option<FirstWord>
    ensures found { IfSome result (λ first. slice_get (map string_bytes words.now) 0 ≡ Some (first_word first)) }
    ensures absent { IfNone result ((first : firsts.FirstWord) → slice_get (map string_bytes words.now) 0 ≢ Some (first_word first)) }
{
    match word_at(words, 0) {
        Some(word) => FirstWord::named(word),
        None => None,
    }
}

// How many blanks in front are filled by the words behind the first.
fn filled(blanks: &[Blank], words: &[String]) -> usize
    ensures within { result ≤ length blanks.now }
    ensures before { (at : ℕ) → at < result → Takes (slice_get blanks.now at) (slice_get (map string_bytes words.now) (at + 1)) }
    ensures stop { result < length blanks.now → ¬ Takes (slice_get blanks.now result) (slice_get (map string_bytes words.now) (result + 1)) }
{
    for (at, blank) in blanks.iter().enumerate() {
        if !is_filled(*blank, words, at + 1) {
            return at;
        }
    }
    blanks.len()
}

// Whether a word stands at the place that may stand in the blank.
fn is_filled(blank: Blank, words: &[String], at: usize) -> bool
    ensures { IsTrue result ↔ Takes (Some blank) (slice_get (map string_bytes words.now) at) }
{
    match word_at(words, at) {
        Some(word) => blank.may_stand(word),
        None => false,
    }
}

// The command with this first word, with the kind and the numbers that the words write.
fn command(first: FirstWord, words: &[String]) -> Command
    ensures first { first_of result ≡ first }
    ensures reads { Reads (map string_bytes words.now) result }
{
    match first {
        FirstWord::Asks(verb) => asking(verb, words),
        FirstWord::Check => Command::Check,
        FirstWord::Trial => Command::Trial {
            kind: kind_at(words, 1),
            nodes: number_at(words, 2),
            number: number_at(words, 3),
        },
    }
}

// The command of this verb.
fn asking(verb: Verb, words: &[String]) -> Command
    ensures first { first_of result ≡ Asks verb }
    ensures reads { Reads (map string_bytes words.now) result }
{
    match verb {
        Verb::Flow => Command::Flow,
        Verb::CutTree => Command::CutTree,
        Verb::Augment => Command::Augment {
            k: number_at(words, 1),
        },
        Verb::AugmentArcs => Command::AugmentArcs {
            k: number_at(words, 1),
        },
        Verb::Arborescences => Command::Arborescences,
        Verb::Trees => Command::Trees,
        Verb::Forests => Command::Forests,
        Verb::Orient => Command::Orient {
            k: number_at(words, 1),
        },
        Verb::Dijoin => Command::Dijoin,
    }
}

// The number that the word at the place writes, where it writes one.
fn number_at(words: &[String], at: usize) -> u32
    ensures { ReadsNumber (slice_get (map string_bytes words.now) at) result }
{
    match word_at(words, at) {
        Some(word) => number(word).unwrap_or(0),
        None => 0,
    }
}

// The kind whose word stands at the place, where it is the word of a kind.
fn kind_at(words: &[String], at: usize) -> TrialKind
    ensures { ReadsKind (slice_get (map string_bytes words.now) at) result }
{
    match word_at(words, at) {
        Some(word) => TrialKind::named(word).unwrap_or(TrialKind::Flow),
        None => TrialKind::Flow,
    }
}

/// The word at the place, counted from 0.
pub fn word_at(words: &[String], at: usize) -> Option<&str>
    ensures { MatchOption result (slice_get (map string_bytes words.now) at ≡ None) (λ word. slice_get (map string_bytes words.now) at ≡ Some word.now) }
{
    match words.get(at) {
        Some(word) => Some(word.as_str()),
        None => None,
    }
}
