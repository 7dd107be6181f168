ghost use Rattle.std.specs.Prelude.{◌≡◌, ◌+◌, ◌-◌, ◌<◌, ◌≤◌, ◌↔◌, length, take, IsTrue, IfOk, IfErr, OnOk, OnErr, IfSome, MatchOption, None, []};
ghost use Rattle.graph_core.specs.Graph.{IsWithinSize};
ghost use Rattle.graph_text.specs.PlainText.{HasFewCosts};
ghost use Rattle.graph_text.specs.Lines.{lines};
ghost use Rattle.graph_text.specs.Item.{said};
ghost use Rattle.graph_text.specs.Text.{sayings, missing};
ghost use Rattle.graph_text.specs.Reading.{ReadsText, IsRefused, IsTextAlone, IsRefusedAlone, AllSkipped, IsFirstSaid};
ghost use Rattle.graph_text.specs.Taken.{grown, CanTake, ReadsLines};
ghost use Rattle.graph_text.specs.Said.{Skipped, End};

use crate::cause::cause;
use crate::draft::Draft;
use crate::item::{Item, item_of_line};
use crate::limits::{MOST_COST, MOST_NUMBER};
use crate::line::first_line;
use crate::number::{arc_cost, number_to};
use crate::{GraphRefusal, Why};
use graph_core::{Graph, NoMemory};
use std::alloc::Global;

/// The graph that the text at the front stands for, and how many bytes the text has: up to and
/// with its `end` line and that line's LF, if it has one.
pub fn read_graph(alloc: Global, bytes: &[u8]) -> Result<(Graph, usize), GraphRefusal>
    ensures text { IfOk result (λ found. ReadsText bytes.now found.0 found.1) }
    ensures size { IfOk result (λ found. IsWithinSize found.0) }
    ensures costs { IfOk result (λ found. HasFewCosts found.0) }
    ensures refused { IfErr result (IsRefused bytes.now) }
{
    let (graph, ended) = read_text(alloc, bytes)?;
    Ok((graph, ended.bytes))
}

/// The graph that the text stands for. Behind its `end` line only skipped lines may follow.
pub fn read_graph_alone(alloc: Global, bytes: &[u8]) -> Result<Graph, GraphRefusal>
    ensures text { IfOk result (λ graph. IsTextAlone bytes.now graph) }
    ensures size { IfOk result (λ graph. IsWithinSize graph) }
    ensures costs { IfOk result (λ graph. HasFewCosts graph) }
    ensures refused { IfErr result (IsRefusedAlone bytes.now) }
{
    let (graph, ended) = read_text(alloc, bytes)?;
    if let Some(at) = first_said(&bytes[ended.bytes..]) {
        return Err(GraphRefusal::Fault {
            line: ended.lines + at + 1,
            why: Why::BadLine,
        });
    }
    Ok(graph)
}

// Where the text at the front ends.
#[derive(Clone, Copy)]
struct Ended {
    lines: usize,
    bytes: usize,
}

// The graph that the text at the front stands for, and where the text ends.
fn read_text(alloc: Global, bytes: &[u8]) -> Result<(Graph, Ended), GraphRefusal>
    ensures text { IfOk result (λ found. ReadsText bytes.now found.0 found.1.bytes) }
    ensures lines { IfOk result (λ found. found.1.lines ≡ length (lines (take found.1.bytes bytes.now))) }
    ensures few { IfOk result (λ found. found.1.lines + (length bytes.now - found.1.bytes) ≤ length bytes.now) }
    ensures size { IfOk result (λ found. IsWithinSize found.0) }
    ensures costs { IfOk result (λ found. HasFewCosts found.0) }
    ensures refused { IfErr result (IsRefused bytes.now) }
{
    let mut draft = Draft::new(alloc);
    let ended = read_lines(alloc, &mut draft, bytes)?;
    match draft.finish(alloc) {
        Ok(graph) => Ok((graph, ended)),
        Err(NoMemory) => Err(GraphRefusal::NoMemory),
    }
}

// Reads the lines of the text, up to and with its end.
fn read_lines(alloc: Global, draft: &mut Draft, bytes: &[u8]) -> Result<Ended, GraphRefusal>
    requires { draft.old ≡ record { kind = None; names = []; numbers = []; ends = [] } }
    ensures ok { IfOk result (λ ended. ReadsLines bytes.now draft.new ended.lines ended.bytes) }
    ensures refused { IfErr result (IsRefused bytes.now) }
{
    let mut rest = bytes;
    let mut line = 0;
    while !rest.is_empty() {
        let (first, after) = first_line(rest);
        let item = item_of_line(first);
        line += 1;
        if let Some(why) = cause(draft, &item) {
            return Err(GraphRefusal::Fault { line, why });
        }
        if is_end(&item) {
            return Ok(Ended {
                lines: line,
                bytes: bytes.len() - after.len(),
            });
        }
        let Ok(()) = take(alloc, draft, &item) else {
            return Err(GraphRefusal::NoMemory);
        };
        rest = after;
    }
    Err(GraphRefusal::Fault {
        line: line + 1,
        why: missing(draft),
    })
}

fn is_end(item: &Item<'_>) -> bool
    ensures { IsTrue result ↔ (said item.now ≡ End) }
{
    matches!(item, Item::End)
}

fn is_skipped(item: &Item<'_>) -> bool
    ensures { IsTrue result ↔ (said item.now ≡ Skipped) }
{
    matches!(item, Item::Skipped)
}

fn missing(draft: &Draft) -> Why
    ensures { result ≡ missing draft.now }
{
    if draft.has_begun() {
        Why::NoEnd
    } else {
        Why::NoHeader
    }
}

// Adds what a line without a fault says.
fn take(alloc: Global, draft: &mut Draft, item: &Item<'_>) -> Result<(), NoMemory>
    requires { CanTake draft.old (said item.now) }
    ensures ok { OnOk result (draft.new ≡ grown draft.old (said item.now)) }
    ensures err { OnErr result (draft.new ≡ draft.old) }
{
    match item {
        Item::Header(kind) => {
            draft.put_kind(*kind);
            Ok(())
        }
        Item::Node(name, word) => {
            let number = number_to(word, MOST_NUMBER).unwrap();
            draft.push_node(alloc, name, number)
        }
        Item::Edge(tail, head) => draft.push_edge(tail, head),
        Item::Arc(tail, head, fixed, word) => {
            let number = number_to(word, MOST_COST).unwrap();
            draft.push_arc(tail, head, *fixed, arc_cost(*fixed, number) as u32)
        }
        _ => Ok(()),
    }
}

// The place of the first line that isn't skipped.
fn first_said(bytes: &[u8]) -> Option<usize>
    ensures place { MatchOption result (AllSkipped (sayings bytes.now)) (IsFirstSaid (sayings bytes.now)) }
    ensures within { IfSome result (λ at. at < length bytes.now) }
{
    let mut rest = bytes;
    let mut at = 0;
    while !rest.is_empty() {
        let (first, after) = first_line(rest);
        let item = item_of_line(first);
        if !is_skipped(&item) {
            return Some(at);
        }
        at += 1;
        rest = after;
    }
    None
}
