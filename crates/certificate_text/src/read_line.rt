ghost use Rattle.std.specs.Prelude.{◌≡◌, ◌∷◌, IfOk, codes};
ghost use Rattle.certificate_text.specs.Finds.{Finds};
ghost use Rattle.certificate_text.specs.Keywords.{keyword_word};
ghost use Rattle.certificate_text.specs.Valid.{IsValid};
ghost use Rattle.certificate_text.specs.Words as words_of;
ghost use Rattle.certificate_text.specs.WordsLeft.{words_left};

use crate::asks::ask_of;
use crate::fields::{is_one, numbers, only_kind, only_number, only_pair, only_weighted, side};
use crate::keyword::{Keyword, keyword_of};
use crate::line::CertLine;
use crate::words::{WordsLeft, is_done, next_word};
use graph_core::{Graph, NoMemory};
use std::alloc::Global;

/// What the line says, where it is a line of a certificate for the graph.
pub fn read_line(alloc: Global, graph: &Graph, line: &[u8]) -> Result<Option<CertLine>, NoMemory>
    ensures { IfOk result (Finds (IsValid graph.now) (words_of.spelled graph.now) line.now) }
{
    graph.known();
    line_of_words(alloc, graph, WordsLeft::More(line))
}

fn line_of_words(
    alloc: Global,
    graph: &Graph,
    words: WordsLeft<'_>,
) -> Result<Option<CertLine>, NoMemory>
    ensures { IfOk result (Finds (IsValid graph.now) (words_of.words graph.now) (words_left words.entry)) }
{
    let Some((word, rest)) = next_word(words) else {
        return Ok(None);
    };
    let Some(keyword) = keyword_of(word) else {
        return Ok(None);
    };
    line_of_keyword(alloc, graph, keyword, rest)
}

fn line_of_keyword(
    alloc: Global,
    graph: &Graph,
    keyword: Keyword,
    words: WordsLeft<'_>,
) -> Result<Option<CertLine>, NoMemory>
    ensures { IfOk result (Finds (IsValid graph.now) (words_of.words graph.now) (keyword_word keyword ∷ words_left words.entry)) }
{
    let m = graph.line_count();
    match keyword {
        Keyword::Certificate => Ok(if is_one(words) {
            Some(CertLine::Title)
        } else {
            None
        }),
        Keyword::Command => Ok(ask_of(graph, words).map(CertLine::Command)),
        Keyword::Value => Ok(only_number(words).map(CertLine::Value)),
        Keyword::Impossible => Ok(if is_done(words) {
            Some(CertLine::Impossible)
        } else {
            None
        }),
        Keyword::Path => Ok(numbers(alloc, m, words)?.map(CertLine::Path)),
        Keyword::Part => Ok(numbers(alloc, m, words)?.map(CertLine::Part)),
        Keyword::Join => Ok(numbers(alloc, m, words)?.map(CertLine::Join)),
        Keyword::Tree => Ok(tree_line(graph, words)),
        Keyword::Edge => Ok(edge_line(graph, words)),
        Keyword::Arc => Ok(arc_line(graph, words)),
        Keyword::Dual => Ok(only_kind(words).map(CertLine::Dual)),
        Keyword::Set => Ok(side(alloc, graph, words)?.map(CertLine::Set)),
        Keyword::End => Ok(if is_done(words) {
            Some(CertLine::End)
        } else {
            None
        }),
    }
}

fn tree_line(graph: &Graph, words: WordsLeft<'_>) -> Option<CertLine>
    ensures { Finds (IsValid graph.now) (words_of.words graph.now) (codes "tree" ∷ words_left words.entry) result }
{
    match only_weighted(graph, words) {
        Some((tail, head, weight)) => Some(CertLine::Tree(tail, head, weight)),
        None => None,
    }
}

fn edge_line(graph: &Graph, words: WordsLeft<'_>) -> Option<CertLine>
    ensures { Finds (IsValid graph.now) (words_of.words graph.now) (codes "edge" ∷ words_left words.entry) result }
{
    match only_pair(graph, words) {
        Some((tail, head)) => Some(CertLine::Edge(tail, head)),
        None => None,
    }
}

fn arc_line(graph: &Graph, words: WordsLeft<'_>) -> Option<CertLine>
    ensures { Finds (IsValid graph.now) (words_of.words graph.now) (codes "arc" ∷ words_left words.entry) result }
{
    match only_pair(graph, words) {
        Some((tail, head)) => Some(CertLine::Arc(tail, head)),
        None => None,
    }
}
