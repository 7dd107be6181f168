ghost use Rattle.std.specs.Prelude.{◌≡◌, ◌++◌, map, IfOk, OnOk};
ghost use Rattle.std.specs.List.{flat_map, zip};
ghost use Rattle.std.specs.Fmt.{decimal};
ghost use Rattle.graph_text.specs.Text.{ends_in};
ghost use Rattle.graph_text.specs.PlainText.{header_line, number_end, node_line, keyword, cost_end, line_end, ends_line, plain_text, HasFewCosts};

use graph_core::{Graph, Kind, Line, NoMemory};
use itoa::Buffer;
use std::alloc::Global;

/// The plain text of a graph. Its arcs cost at most 4,000 together, since a text with more isn't read back. A graph of more
/// than 128 nodes or 2,048 lines is written too, but isn't read back either.
pub fn write_graph(alloc: Global, graph: &Graph) -> Result<Vec<u8>, NoMemory>
    requires { HasFewCosts graph.now }
    ensures { IfOk result (λ text. text.items ≡ plain_text graph.now) }
{
    let mut text = Vec::new(alloc);
    push_header(&mut text, graph.kind())?;
    push_nodes(&mut text, graph)?;
    push_lines(&mut text, graph)?;
    push_text(&mut text, b"end\n")?;
    Ok(text)
}

fn push_header(text: &mut Vec<u8>, kind: Kind) -> Result<(), NoMemory>
    ensures { OnOk result (text.new.items ≡ text.old.items ++ header_line kind) }
{
    match kind {
        Kind::Undirected => push_text(text, b"graph undirected\n"),
        Kind::Directed => push_text(text, b"graph directed\n"),
    }
}

fn push_nodes(text: &mut Vec<u8>, graph: &Graph) -> Result<(), NoMemory>
    ensures { OnOk result (text.new.items ≡ text.old.items ++ flat_map node_line (zip graph.now.names graph.now.numbers)) }
{
    graph.known();
    for v in 0..graph.node_count() {
        let v = v as u32;
        push_node_line(text, graph.name(v).bytes(), graph.number(v))?;
    }
    Ok(())
}

fn push_node_line(text: &mut Vec<u8>, name: &[u8], number: u64) -> Result<(), NoMemory>
    ensures { OnOk result (text.new.items ≡ text.old.items ++ node_line (name.now, number)) }
{
    push_text(text, b"node ")?;
    push_text(text, name)?;
    push_number_end(text, number)
}

fn push_number_end(text: &mut Vec<u8>, number: u64) -> Result<(), NoMemory>
    ensures { OnOk result (text.new.items ≡ text.old.items ++ number_end number) }
{
    if number != 0 {
        push_text(text, b" ")?;
        push_decimal(text, number)?;
    }
    push_text(text, b"\n")
}

fn push_lines(text: &mut Vec<u8>, graph: &Graph) -> Result<(), NoMemory>
    ensures { OnOk result (text.new.items ≡ text.old.items ++ flat_map (ends_line graph.now.kind) (map (ends_in graph.now.names) graph.now.lines)) }
{
    graph.known();
    for j in 0..graph.line_count() {
        let line = graph.line(j);
        let tail = graph.name(line.tail).bytes();
        let head = graph.name(line.head).bytes();
        push_ends_line(text, graph.kind(), tail, head, line)?;
    }
    Ok(())
}

fn push_ends_line(
    text: &mut Vec<u8>,
    kind: Kind,
    tail: &[u8],
    head: &[u8],
    line: Line,
) -> Result<(), NoMemory>
    ensures { OnOk result (text.new.items ≡ text.old.items ++ ends_line kind (record { tail = tail.now; head = head.now; fixed = line.fixed; cost = line.cost })) }
{
    push_keyword(text, kind)?;
    push_text(text, tail)?;
    push_text(text, b" ")?;
    push_text(text, head)?;
    push_line_end(text, line.fixed, line.cost)
}

fn push_keyword(text: &mut Vec<u8>, kind: Kind) -> Result<(), NoMemory>
    ensures { OnOk result (text.new.items ≡ text.old.items ++ keyword kind) }
{
    match kind {
        Kind::Undirected => push_text(text, b"edge "),
        Kind::Directed => push_text(text, b"arc "),
    }
}

fn push_line_end(text: &mut Vec<u8>, fixed: bool, cost: u32) -> Result<(), NoMemory>
    ensures { OnOk result (text.new.items ≡ text.old.items ++ line_end fixed cost) }
{
    if fixed {
        push_text(text, b" fixed\n")
    } else {
        push_cost_end(text, cost)
    }
}

fn push_cost_end(text: &mut Vec<u8>, cost: u32) -> Result<(), NoMemory>
    ensures { OnOk result (text.new.items ≡ text.old.items ++ cost_end cost) }
{
    if cost != 1 {
        push_text(text, b" cost ")?;
        push_decimal(text, u64::from(cost))?;
    }
    push_text(text, b"\n")
}

fn push_decimal(text: &mut Vec<u8>, number: u64) -> Result<(), NoMemory>
    ensures { OnOk result (text.new.items ≡ text.old.items ++ decimal number) }
{
    let mut buffer = Buffer::new();
    push_text(text, buffer.format(number).as_bytes())
}

fn push_text(text: &mut Vec<u8>, part: &[u8]) -> Result<(), NoMemory>
    ensures { OnOk result (text.new.items ≡ text.old.items ++ part.now) }
{
    match text.extend_from_slice(part) {
        Ok(()) => Ok(()),
        Err(_) => Err(NoMemory),
    }
}
