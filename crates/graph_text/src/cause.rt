ghost use Rattle.std.specs.Prelude.{◌≡◌, ◌∷◌, [], Some, true, is_some};
ghost use Rattle.std.specs.List.{find};
ghost use Rattle.graph_text.specs.Item.{said};
ghost use Rattle.graph_text.specs.Cause as causes;
ghost use Rattle.graph_text.specs.Said.{Node, Edge, Arc};
ghost use Rattle.graph_text.specs.declared.refusal.Why.TheVariants.{UnknownNode, Loop, ManyLines};
ghost use Rattle.graph_core.specs.declared.graph.Kind.TheVariants.{Undirected, Directed};

use crate::Why;
use crate::draft::Draft;
use crate::item::Item;
use crate::limits::{MOST_COST, MOST_COSTS, MOST_LINES, MOST_NODES, MOST_NUMBER, MOST_NUMBERS};
use crate::number::{arc_cost, number_to};
use graph_core::{Kind, Name};

/// The first cause that holds of the line.
pub(crate) fn cause(draft: &Draft, item: &Item<'_>) -> Option<Why>
    ensures { result ≡ causes.cause draft.now (said item.now) }
{
    match item {
        Item::Skipped => None,
        Item::Header(_) => {
            if draft.has_begun() {
                Some(Why::BadLine)
            } else {
                None
            }
        }
        _ if !draft.has_begun() => Some(Why::NoHeader),
        Item::Node(name, number) => cause_of_node(draft, name, number),
        Item::Edge(tail, head) => cause_of_edge(draft, tail, head),
        Item::Arc(tail, head, fixed, cost) => cause_of_arc(draft, tail, head, *fixed, cost),
        Item::End => {
            if draft.node_count() == 0 {
                Some(Why::NoNode)
            } else {
                None
            }
        }
        Item::Other => Some(Why::BadLine),
    }
}

fn is_name(word: &[u8]) -> bool
    ensures { result ≡ causes.is_name word.now }
{
    Name::is_name(word)
}

fn cause_of_node(draft: &Draft, name: &[u8], word: &[u8]) -> Option<Why>
    requires { is_some draft.now.kind ≡ true }
    ensures { result ≡ causes.cause draft.now (Node name.now word.now) }
{
    if !is_name(name) {
        return Some(Why::BadName);
    }
    let Some(number) = number_to(word, MOST_NUMBER) else {
        return Some(Why::BadNumber);
    };
    if draft.find(name).is_some() {
        Some(Why::TwiceNode)
    } else if draft.node_count() >= MOST_NODES {
        Some(Why::ManyNodes)
    } else if draft.number_sum() + number > MOST_NUMBERS {
        Some(Why::ManyNumbers)
    } else {
        None
    }
}

fn cause_of_edge(draft: &Draft, tail: &[u8], head: &[u8]) -> Option<Why>
    ensures { result ≡ causes.cause draft.now (Edge tail.now head.now) }
{
    match draft.kind() {
        None => Some(Why::NoHeader),
        Some(Kind::Directed) => Some(Why::WrongKind),
        Some(Kind::Undirected) => {
            if !is_name(tail) || !is_name(head) {
                Some(Why::BadName)
            } else {
                cause_of_ends(draft, tail, head)
            }
        }
    }
}

fn cause_of_arc(draft: &Draft, tail: &[u8], head: &[u8], fixed: bool, word: &[u8]) -> Option<Why>
    ensures { result ≡ causes.cause draft.now (Arc tail.now head.now fixed word.now) }
{
    match draft.kind() {
        None => Some(Why::NoHeader),
        Some(Kind::Undirected) => Some(Why::WrongKind),
        Some(Kind::Directed) => cause_of_own_arc(draft, tail, head, fixed, word),
    }
}

// The first cause that holds of an arc of a directed graph.
fn cause_of_own_arc(
    draft: &Draft,
    tail: &[u8],
    head: &[u8],
    fixed: bool,
    word: &[u8],
) -> Option<Why>
    requires { draft.now.kind ≡ Some Directed }
    ensures { result ≡ causes.cause draft.now (Arc tail.now head.now fixed word.now) }
{
    if !is_name(tail) || !is_name(head) {
        return Some(Why::BadName);
    }
    let Some(number) = number_to(word, MOST_COST) else {
        return Some(Why::BadNumber);
    };
    match cause_of_ends(draft, tail, head) {
        Some(why) => Some(why),
        None if draft.cost_sum() + arc_cost(fixed, number) > MOST_COSTS => Some(Why::ManyCosts),
        None => None,
    }
}

// The first cause that holds of the ends of a line, by what stands before it.
fn cause_of_ends(draft: &Draft, tail: &[u8], head: &[u8]) -> Option<Why>
    ensures { result ≡ find (causes.holds draft.now (Edge tail.now head.now)) (UnknownNode ∷ Loop ∷ ManyLines ∷ []) }
{
    if draft.find(tail).is_none() || draft.find(head).is_none() {
        Some(Why::UnknownNode)
    } else if tail == head {
        Some(Why::Loop)
    } else if draft.line_count() >= MOST_LINES {
        Some(Why::ManyLines)
    } else {
        None
    }
}
