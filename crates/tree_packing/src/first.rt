ghost use Rattle.std.specs.Prelude.{◌≡◌, ◌≤◌, ℕ, Bool, false, List, [], ◌∷◌, length, replicate, IfOk};
ghost use Rattle.graph_core.specs.Lines.{degree};
ghost use Rattle.graph_core.specs.Side.{complement, IsOnly, IsProper};
ghost use Rattle.problem_defs.specs.Trees.{Suits, IsDual};
ghost use Rattle.tree_packing.specs.Start.{IsWithinSingles, IsWithinNodes, IsStart};

use crate::packing::bound_of;
use graph_core::{Graph, Marks, NoMemory, Side, Sides};
use graphic_matroid::{components, graph_components};
use std::alloc::Global;

/// A partition with a small bound to begin with: the components of a graph that isn't connected;
/// else the single nodes, or a node of least degree against the rest.
pub(crate) fn first_partition(alloc: Global, graph: &Graph) -> Result<Sides, NoMemory>
    requires { Suits graph.now }
    ensures { IfOk result (IsStart graph.now) }
{
    let whole = graph_components(alloc, graph)?;
    if whole.len() >= 2 {
        return Ok(whole);
    }
    let single = single_nodes(alloc, graph)?;
    let halves = node_and_rest(alloc, graph)?;
    if bound_of(graph, &halves) < bound_of(graph, &single) {
        Ok(halves)
    } else {
        Ok(single)
    }
}

/// Each node alone.
fn single_nodes(alloc: Global, graph: &Graph) -> Result<Sides, NoMemory>
    requires { Suits graph.now }
    ensures dual { IfOk result (IsDual graph.now) }
    ensures singles { IfOk result (IsWithinSingles graph.now) }
{
    let none = no_marks(alloc, graph.line_count())?;
    components(alloc, graph, &none)
}

/// None of so many lines.
fn no_marks(alloc: Global, lines: usize) -> Result<Marks, NoMemory>
    ensures { IfOk result (λ marks. marks ≡ replicate lines false) }
{
    Ok(Marks::from_vec(Vec::from_elem(alloc, false, lines)?))
}

/// A node of least degree against the rest.
fn node_and_rest(alloc: Global, graph: &Graph) -> Result<Sides, NoMemory>
    requires { Suits graph.now }
    ensures dual { IfOk result (IsDual graph.now) }
    ensures nodes { IfOk result (IsWithinNodes graph.now) }
{
    graph.known();
    let node = least_node(alloc, graph)?;
    halves(alloc, node)
}

/// A side and its complement.
fn halves(alloc: Global, side: Side) -> Result<Sides, NoMemory>
    ensures { IfOk result (λ classes. classes ≡ side ∷ complement side ∷ []) }
{
    let mut rest = side.copy(alloc)?;
    rest.complement();
    let mut classes = Sides::new(alloc);
    classes.push(side)?;
    classes.push(rest)?;
    Ok(classes)
}

/// A node of least degree, alone.
fn least_node(alloc: Global, graph: &Graph) -> Result<Side, NoMemory>
    requires { 2 ≤ length graph.now.names }
    ensures proper { IfOk result (IsProper (length graph.now.names)) }
    ensures least { IfOk result (λ X. (Y : List Bool) (v : ℕ) → length Y ≡ length graph.now.names → IsOnly Y v → degree X graph.now.lines ≤ degree Y graph.now.lines) }
{
    graph.known();
    let n = graph.node_count();
    let mut node = Side::empty(alloc, n)?;
    let mut least = Side::empty(alloc, n)?;
    least.hold_only(0);
    for v in 1..n as u32 {
        node.hold_only(v);
        if graph.degree(&node) < graph.degree(&least) {
            least.set_to(&node);
        }
    }
    Ok(least)
}
