ghost use Rattle.std.specs.Prelude.{◌≡◌, ◌+◌, ◌*◌, ◌≤◌, ◌<◌, length, sum_by, IfOk};
ghost use Rattle.graph_core.specs.Limits.{most_nodes};
ghost use Rattle.graph_core.specs.Graph.{IsWithinSize};
ghost use Rattle.connect_gen.specs.Generated.{node_name, node_names, generated_lines, generated};

use crate::draws::{Draws, line};
use graph_core::{Graph, Kind, Line, Name, NoMemory};
use itoa::Buffer;
use std::alloc::Global;

/// A graph of so many nodes that the number stands for: a random tree, and three further lines a node.
/// It is connected, and in a digraph each arc goes from an earlier node to a later one.
pub fn make(alloc: Global, kind: Kind, nodes: u32, number: u32) -> Result<Graph, NoMemory>
    requires some { 2 ≤ nodes }
    requires few { nodes ≤ most_nodes }
    ensures graph { IfOk result (λ graph. graph ≡ generated kind nodes number) }
    ensures nodes { IfOk result (λ graph. length graph.names ≡ nodes) }
    ensures costs { IfOk result (λ graph. sum_by (λ line. line.cost) graph.lines + 1 ≡ 4 * nodes) }
    ensures size { IfOk result (λ graph. IsWithinSize graph) }
{
    let names = node_names(alloc, nodes)?;
    let lines = lines(alloc, nodes, number)?;
    Ok(Graph::new(kind, names, lines))
}

fn node_names(alloc: Global, nodes: u32) -> Result<Vec<Name>, NoMemory>
    requires { nodes ≤ most_nodes }
    ensures { IfOk result (λ names. names.items ≡ node_names nodes) }
{
    let mut names = Vec::with_capacity(alloc, nodes as usize)?;
    for v in 0..nodes {
        names.push(node_name(alloc, v)?)?;
    }
    Ok(names)
}

fn node_name(alloc: Global, v: u32) -> Result<Name, NoMemory>
    requires { v < most_nodes }
    ensures { IfOk result (λ name. name ≡ node_name v) }
{
    let mut buffer = Buffer::new();
    let mut text = Vec::from_slice(alloc, b"n")?;
    text.extend_from_slice(buffer.format(v + 1).as_bytes())?;
    Name::make(alloc, &text)
}

fn lines(alloc: Global, nodes: u32, number: u32) -> Result<Vec<Line>, NoMemory>
    requires some { 2 ≤ nodes }
    requires few { nodes ≤ most_nodes }
    ensures { IfOk result (λ lines. lines.items ≡ generated_lines number nodes) }
{
    let mut draws = Draws {
        state: u64::from(number),
    };
    let mut lines = Vec::with_capacity(alloc, 4 * nodes as usize - 1)?;
    for i in 1..nodes {
        lines.push(line(draws.draw(i), i))?;
    }
    for _j in 0..3 * nodes {
        lines.push(draws.draw_chord(nodes))?;
    }
    Ok(lines)
}
