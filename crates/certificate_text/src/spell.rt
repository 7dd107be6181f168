ghost use Rattle.std.specs.Prelude.{◌≡◌, ◌++◌, ◌∷◌, [], ◌<◌, ◌≤◌, All, OnOk, length, codes};
ghost use Rattle.std.specs.List.{flat_map, join_with_byte};
ghost use Rattle.std.specs.Fmt.{decimal};
ghost use Rattle.graph_core.specs.Limits.{line_room};
ghost use Rattle.graph_core.specs.Graph.{Fits};
ghost use Rattle.certificate_text.specs.Words as words_of;
ghost use Rattle.certificate_text.specs.Text.{line_text, spelling};
ghost use Rattle.certificate_text.specs.Lines.{turned_line, turned_lines};
ghost use Rattle.certificate_text.specs.declared.line.CertLine.TheVariants as line;

use crate::line::DualKind;
use graph_core::{
    Graph, Heads, Line, NoMemory, NumberRows, Numbers, Pairs, Side, Sides, WeightedPairs,
};
use itoa::Buffer;

/// The bytes.
pub fn push_text(text: &mut Vec<u8>, part: &[u8]) -> Result<(), NoMemory>
    ensures { OnOk result (text.new.items ≡ text.old.items ++ part.now) }
{
    match text.extend_from_slice(part) {
        Ok(()) => Ok(()),
        Err(_) => Err(NoMemory),
    }
}

/// A blank and the number.
pub fn push_number(text: &mut Vec<u8>, number: u64) -> Result<(), NoMemory>
    ensures { OnOk result (text.new.items ≡ text.old.items ++ 32 ∷ decimal number) }
{
    let mut buffer = Buffer::new();
    push_text(text, b" ")?;
    push_text(text, buffer.format(number).as_bytes())
}

/// A blank and the node's name.
pub fn push_name(text: &mut Vec<u8>, graph: &Graph, v: u32) -> Result<(), NoMemory>
    requires { v < length graph.now.names }
    ensures { OnOk result (text.new.items ≡ text.old.items ++ 32 ∷ words_of.name_of graph.now v) }
{
    push_text(text, b" ")?;
    push_text(text, graph.name(v).bytes())
}

/// The `value` line.
pub fn push_value(text: &mut Vec<u8>, value: u64) -> Result<(), NoMemory>
    ensures { OnOk result (text.new.items ≡ text.old.items ++ words_of.word_line (codes "value") (decimal value)) }
{
    push_text(text, b"value")?;
    push_number(text, value)?;
    push_text(text, b"\n")
}

/// A line of a word and of line numbers.
pub fn push_numbers_line(text: &mut Vec<u8>, word: &[u8], numbers: &Numbers) -> Result<(), NoMemory>
    requires { All (λ j. j < line_room) numbers.now }
    ensures { OnOk result (text.new.items ≡ text.old.items ++ words_of.numbers_line word.now numbers.now) }
{
    push_text(text, word)?;
    for j in 0..numbers.len() {
        push_number(text, u64::from(*numbers.item(j)) + 1)?;
    }
    push_text(text, b"\n")
}

/// A line of the word for each row.
pub fn push_rows(text: &mut Vec<u8>, word: &[u8], rows: &NumberRows) -> Result<(), NoMemory>
    requires { All (All (λ j. j < line_room)) rows.now }
    ensures { OnOk result (text.new.items ≡ text.old.items ++ flat_map (words_of.numbers_line word.now) rows.now) }
{
    for at in 0..rows.len() {
        push_numbers_line(text, word, rows.item(at))?;
    }
    Ok(())
}

/// A line of a word and of two names.
pub fn push_pair_line(
    text: &mut Vec<u8>,
    graph: &Graph,
    word: &[u8],
    tail: u32,
    head: u32,
) -> Result<(), NoMemory>
    requires tail { tail < length graph.now.names }
    requires head { head < length graph.now.names }
    ensures { OnOk result (text.new.items ≡ text.old.items ++ words_of.pair_line graph.now word.now (tail, head)) }
{
    push_text(text, word)?;
    push_name(text, graph, tail)?;
    push_name(text, graph, head)?;
    push_text(text, b"\n")
}

/// A line of the word for each pair.
pub fn push_pairs(
    text: &mut Vec<u8>,
    graph: &Graph,
    word: &[u8],
    pairs: &Pairs,
) -> Result<(), NoMemory>
    requires { All (λ p. (p.0 < length graph.now.names) × (p.1 < length graph.now.names)) pairs.now }
    ensures { OnOk result (text.new.items ≡ text.old.items ++ flat_map (words_of.pair_line graph.now word.now) pairs.now) }
{
    for at in 0..pairs.len() {
        let (tail, head) = *pairs.item(at);
        push_pair_line(text, graph, word, tail, head)?;
    }
    Ok(())
}

fn push_tree_line(
    text: &mut Vec<u8>,
    graph: &Graph,
    tail: u32,
    head: u32,
    weight: u64,
) -> Result<(), NoMemory>
    requires tail { tail < length graph.now.names }
    requires head { head < length graph.now.names }
    ensures { OnOk result (text.new.items ≡ text.old.items ++ line_text graph.now (line.Tree tail head weight)) }
{
    push_text(text, b"tree")?;
    push_name(text, graph, tail)?;
    push_name(text, graph, head)?;
    push_number(text, weight)?;
    push_text(text, b"\n")
}

/// A `tree` line for each pair.
pub fn push_trees(text: &mut Vec<u8>, graph: &Graph, pairs: &WeightedPairs) -> Result<(), NoMemory>
    requires { All (λ p. (p.0 < length graph.now.names) × (p.1 < length graph.now.names)) pairs.now }
    ensures { OnOk result (text.new.items ≡ text.old.items ++ flat_map (λ p. line_text graph.now (line.Tree p.0 p.1 p.2)) pairs.now) }
{
    for at in 0..pairs.len() {
        let (tail, head, weight) = *pairs.item(at);
        push_tree_line(text, graph, tail, head, weight)?;
    }
    Ok(())
}

/// The arc of each edge, in the direction that it was given.
pub fn push_turned(text: &mut Vec<u8>, graph: &Graph, heads: &Heads) -> Result<(), NoMemory>
    requires { length heads.now ≡ length graph.now.lines }
    ensures { OnOk result (text.new.items ≡ text.old.items ++ spelling graph.now (turned_lines graph.now.lines heads.now)) }
{
    graph.known();
    for j in 0..graph.line_count() {
        push_turned_line(text, graph, graph.line(j), *heads.item(j))?;
    }
    Ok(())
}

fn push_turned_line(
    text: &mut Vec<u8>,
    graph: &Graph,
    line: Line,
    forward: bool,
) -> Result<(), NoMemory>
    requires { Fits (length graph.now.names) line }
    ensures { OnOk result (text.new.items ≡ text.old.items ++ line_text graph.now (turned_line line forward)) }
{
    if forward {
        push_pair_line(text, graph, b"arc", line.tail, line.head)
    } else {
        push_pair_line(text, graph, b"arc", line.head, line.tail)
    }
}

/// The `dual` line.
pub fn push_dual(text: &mut Vec<u8>, kind: DualKind) -> Result<(), NoMemory>
    ensures { OnOk result (text.new.items ≡ text.old.items ++ words_of.word_line (codes "dual") (words_of.dual_word kind)) }
{
    push_text(text, b"dual ")?;
    push_text(text, dual_word(kind))?;
    push_text(text, b"\n")
}

/// The word for a dual.
pub fn dual_word(kind: DualKind) -> &'static [u8]
    ensures { result.now ≡ words_of.dual_word kind }
{
    match kind {
        DualKind::Cut => b"cut",
        DualKind::Components => b"components",
        DualKind::Subpartition => b"subpartition",
        DualKind::In => b"in",
        DualKind::Out => b"out",
        DualKind::Partition => b"partition",
        DualKind::Induced => b"set",
        DualKind::Nothing => b"none",
        DualKind::Dicuts => b"dicuts",
        DualKind::Dicut => b"dicut",
    }
}

/// A `set` line, with the names in the order of the nodes.
pub fn push_set(text: &mut Vec<u8>, graph: &Graph, side: &Side) -> Result<(), NoMemory>
    requires { length side.now ≡ length graph.now.names }
    ensures { OnOk result (text.new.items ≡ text.old.items ++ line_text graph.now (line.Set side.now)) }
{
    graph.known();
    push_text(text, b"set")?;
    for v in 0..graph.node_count() {
        push_member(text, graph, side, v as u32)?;
    }
    push_text(text, b"\n")
}

// The node's name, where the node is in the side.
fn push_member(text: &mut Vec<u8>, graph: &Graph, side: &Side, v: u32) -> Result<(), NoMemory>
    requires node { v < length graph.now.names }
    requires long { length side.now ≡ length graph.now.names }
    ensures { OnOk result (text.new.items ≡ text.old.items ++ words_of.member_name graph.now side.now v) }
{
    if side.has(v) {
        push_name(text, graph, v)?;
    }
    Ok(())
}

/// A `set` line for each side.
pub fn push_sets(text: &mut Vec<u8>, graph: &Graph, sides: &Sides) -> Result<(), NoMemory>
    requires { All (λ X. length X ≡ length graph.now.names) sides.now }
    ensures { OnOk result (text.new.items ≡ text.old.items ++ flat_map (λ X. line_text graph.now (line.Set X)) sides.now) }
{
    for at in 0..sides.len() {
        push_set(text, graph, sides.item(at))?;
    }
    Ok(())
}
