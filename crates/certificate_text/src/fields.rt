ghost use Rattle.std.specs.Prelude.{◌≡◌, ◌≢◌, ◌↔◌, ◌+◌, ◌<◌, ◌≤◌, ◌^◌, ◌∷◌, [], ℕ, List, All, IfOk, IfSome, IfNone, IsTrue, MatchOption, codes, length};
ghost use Rattle.std.specs.Fmt.{decimal};
ghost use Rattle.problem_defs.specs.Ask.{IsK};
ghost use Rattle.certificate_text.specs.Finds.{Finds};
ghost use Rattle.certificate_text.specs.SideRead.{IsMissing, IsNext};
ghost use Rattle.certificate_text.specs.WordsLeft.{words_left};
ghost use Rattle.certificate_text.specs.Words as words_of;
ghost use Rattle.graph_core.specs.Limits.{line_room};

use crate::decimals::number;
use crate::keyword::kind_of;
use crate::line::DualKind;
use crate::words::{WordsLeft, is_done, next_word};
use graph_core::{Graph, NoMemory, Numbers, Side};
use std::alloc::Global;

/// The greatest k of a command.
const MOST_K: u64 = 32;

/// Whether `1` is the only word left.
pub fn is_one(words: WordsLeft<'_>) -> bool
    ensures { IsTrue result ↔ (words_left words.entry ≡ codes "1" ∷ []) }
{
    let Some((word, rest)) = next_word(words) else {
        return false;
    };
    word == b"1".as_slice() && is_done(rest)
}

/// The number that is the only word left.
pub fn only_number(words: WordsLeft<'_>) -> Option<u64>
    ensures { Finds (λ n. n < 2 ^ 64) (λ n. decimal n ∷ []) (words_left words.entry) result }
{
    let Some((word, rest)) = next_word(words) else {
        return None;
    };
    if !is_done(rest) {
        return None;
    }
    number(word)
}

/// The dual that the only word left names.
pub fn only_kind(words: WordsLeft<'_>) -> Option<DualKind>
    ensures { Finds (λ _. Unit {0}) (λ k. words_of.dual_word k ∷ []) (words_left words.entry) result }
{
    let Some((word, rest)) = next_word(words) else {
        return None;
    };
    if !is_done(rest) {
        return None;
    }
    kind_of(word)
}

/// The node whose name is the only word left.
pub fn only_node(graph: &Graph, words: WordsLeft<'_>) -> Option<u32>
    ensures { Finds (λ v. v < length graph.now.names) (λ v. words_of.name_of graph.now v ∷ []) (words_left words.entry) result }
{
    let Some((word, rest)) = next_word(words) else {
        return None;
    };
    if !is_done(rest) {
        return None;
    }
    node(graph, word)
}

/// The first node of this name from node `from` on.
fn node_from(graph: &Graph, from: usize, word: &[u8]) -> Option<u32>
    ensures some { IfSome result (IsNext graph.now from word.now) }
    ensures none { IfNone result (IsMissing graph.now from (length graph.now.names) word.now) }
{
    graph.known();
    for v in from..graph.node_count() {
        let name = graph.name(v as u32).bytes();
        if name == word {
            return Some(v as u32);
        }
    }
    None
}

/// The node of this name.
fn node(graph: &Graph, word: &[u8]) -> Option<u32>
    ensures { Finds (λ v. v < length graph.now.names) (words_of.name_of graph.now) word.now result }
{
    node_from(graph, 0, word)
}

/// The nodes whose names are the next two words, and the words behind them.
pub fn two_nodes<'a>(graph: &Graph, words: WordsLeft<'a>) -> Option<(u32, u32, WordsLeft<'a>)>
    ensures { MatchOption result ((u v : ℕ) (more : List (List ℕ)) → u < length graph.now.names → v < length graph.now.names → words_left words.entry ≢ words_of.name_of graph.now u ∷ words_of.name_of graph.now v ∷ more) (λ found. (found.0 < length graph.now.names) × (found.1 < length graph.now.names) × (words_left words.entry ≡ words_of.name_of graph.now found.0 ∷ words_of.name_of graph.now found.1 ∷ words_left found.2)) }
{
    let Some((first, rest)) = next_word(words) else {
        return None;
    };
    let Some((second, rest)) = next_word(rest) else {
        return None;
    };
    let Some(tail) = node(graph, first) else {
        return None;
    };
    let Some(head) = node(graph, second) else {
        return None;
    };
    Some((tail, head, rest))
}

/// The nodes whose names are the only two words left.
pub fn only_pair(graph: &Graph, words: WordsLeft<'_>) -> Option<(u32, u32)>
    ensures { Finds (λ p. (p.0 < length graph.now.names) × (p.1 < length graph.now.names)) (λ p. words_of.name_of graph.now p.0 ∷ words_of.name_of graph.now p.1 ∷ []) (words_left words.entry) result }
{
    let Some((tail, head, rest)) = two_nodes(graph, words) else {
        return None;
    };
    if is_done(rest) {
        Some((tail, head))
    } else {
        None
    }
}

/// The nodes and the weight of the only three words left.
pub fn only_weighted(graph: &Graph, words: WordsLeft<'_>) -> Option<(u32, u32, u64)>
    ensures { Finds (λ p. (p.0 < length graph.now.names) × (p.1 < length graph.now.names) × (p.2 < 2 ^ 64)) (λ p. words_of.name_of graph.now p.0 ∷ words_of.name_of graph.now p.1 ∷ decimal p.2 ∷ []) (words_left words.entry) result }
{
    let Some((tail, head, rest)) = two_nodes(graph, words) else {
        return None;
    };
    match only_number(rest) {
        Some(weight) => Some((tail, head, weight)),
        None => None,
    }
}

// The line that the word numbers, from 1 to m.
fn line_number(word: &[u8], m: usize) -> Option<u32>
    requires { m ≤ line_room }
    ensures { Finds (λ j. j < m) (λ j. decimal (j + 1)) word.now result }
{
    let Some(n) = number(word) else {
        return None;
    };
    if n == 0 {
        return None;
    }
    if n > m as u64 {
        return None;
    }
    Some((n - 1) as u32)
}

/// The k of a command that is the only word left.
pub fn only_k(words: WordsLeft<'_>) -> Option<u32>
    ensures { Finds IsK (λ k. decimal k ∷ []) (words_left words.entry) result }
{
    let Some(n) = only_number(words) else {
        return None;
    };
    if n == 0 {
        return None;
    }
    if n > MOST_K {
        return None;
    }
    Some(n as u32)
}

/// The lines that the words left number.
pub fn numbers(alloc: Global, m: usize, words: WordsLeft<'_>) -> Result<Option<Numbers>, NoMemory>
    requires { m ≤ line_room }
    ensures { IfOk result (Finds (All (λ j. j < m)) words_of.numbers (words_left words.entry)) }
{
    let mut numbers = Numbers::new(alloc);
    let mut rest = words;
    while let Some((word, behind)) = next_word(rest) {
        let Some(j) = line_number(word, m) else {
            return Ok(None);
        };
        numbers.push(j)?;
        rest = behind;
    }
    Ok(Some(numbers))
}

/// The side whose nodes the words left name, in the order of the nodes.
pub fn side(alloc: Global, graph: &Graph, words: WordsLeft<'_>) -> Result<Option<Side>, NoMemory>
    ensures { IfOk result (Finds (λ X. length X ≡ length graph.now.names) (words_of.names_in graph.now.names) (words_left words.entry)) }
{
    graph.known();
    let mut side = Side::empty(alloc, graph.node_count())?;
    let mut left = words;
    let mut from = 0;
    while let Some((word, behind)) = next_word(left) {
        let Some(v) = node_from(graph, from, word) else {
            return Ok(None);
        };
        side.put(v, true);
        from = v as usize + 1;
        left = behind;
    }
    Ok(Some(side))
}
