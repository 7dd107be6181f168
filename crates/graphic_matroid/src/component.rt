ghost use Rattle.std.specs.Prelude.{◌≡◌, ℕ, ◌<◌, ◌≤◌, ◌^◌, length, slice_index, count_by, IfOk};
ghost use Rattle.graphic_matroid.specs.Chosen.{chosen};
ghost use Rattle.graphic_matroid.specs.Components.{AreComponents, classes_of};
ghost use Rattle.graph_core.specs.Limits.{line_room, side_room};
ghost use Rattle.graph_core.specs.Labels.{class};
ghost use Rattle.graphic_matroid.specs.Unfit.{unfit};
ghost use Rattle.graphic_matroid.specs.Roots.{AreRoots, AreClasses, IsRootOf};

use crate::classes::Classes;
use graph_core::{Graph, Line, Marks, NoMemory, Side, Sides};
use std::alloc::Global;

/// The classes of the nodes that the marked lines join.
pub fn components(alloc: Global, graph: &Graph, marks: &Marks) -> Result<Sides, NoMemory>
    requires { length marks.now ≡ length graph.now.lines }
    ensures { IfOk result (AreComponents (length graph.now.names) (chosen marks.now graph.now.lines)) }
{
    graph.known();
    let mut classes = Classes::new(alloc, graph.node_count())?;
    join_marked(&mut classes, graph.lines(), marks);
    let roots = roots_of(alloc, &classes)?;
    sides_of(alloc, &roots)
}

/// The components of the graph.
pub fn graph_components(alloc: Global, graph: &Graph) -> Result<Sides, NoMemory>
    ensures { IfOk result (AreComponents (length graph.now.names) graph.now.lines) }
{
    let all = Marks::from_vec(Vec::from_elem(alloc, true, graph.line_count())?);
    components(alloc, graph, &all)
}

/// Makes the classes those that the marked lines join.
fn join_marked(classes: &mut Classes, lines: &[Line], marks: &Marks)
    requires few_nodes { length classes.old.parents.items < 2 ^ 32 }
    requires few_lines { length lines.now ≤ line_room }
    requires alike { length classes.old.ranks.items ≡ length classes.old.parents.items }
    requires fit { count_by (unfit (length classes.old.parents.items)) lines.now ≡ 0 }
    requires long { length marks.now ≡ length lines.now }
    ensures roots { AreRoots (length classes.old.parents.items) classes.new.parents.items classes.new.ranks.items }
    ensures classes { AreClasses (length classes.old.parents.items) classes.new.parents.items (chosen marks.now lines.now) }
{
    classes.reset();
    for j in 0..lines.len() {
        if *marks.item(j) {
            classes.join_ends(lines[j]);
        }
    }
}

/// The root of each node's class.
fn roots_of(alloc: Global, classes: &Classes) -> Result<Vec<u32>, NoMemory>
    requires roots { AreRoots (length classes.now.parents.items) classes.now.parents.items classes.now.ranks.items }
    requires few { length classes.now.parents.items < 2 ^ 32 }
    ensures long { IfOk result (λ roots. length roots.items ≡ length classes.now.parents.items) }
    ensures each { IfOk result (λ roots. (v : ℕ) → v < length classes.now.parents.items → IsRootOf classes.now.parents.items v (slice_index roots.items v)) }
{
    let mut roots = Vec::new(alloc);
    for v in 0..classes.parents.len() {
        let root = classes.root(v as u32);
        roots.push(root)?;
    }
    Ok(roots)
}

/// The class of each node that is its own root.
fn sides_of(alloc: Global, roots: &[u32]) -> Result<Sides, NoMemory>
    requires { length roots.now ≤ side_room }
    ensures { IfOk result (λ sides. sides ≡ classes_of (length roots.now) (slice_index roots.now)) }
{
    let mut sides = Sides::new(alloc);
    for v in 0..roots.len() {
        if roots[v] as usize == v {
            sides.push(class_of(alloc, roots, v as u32)?)?;
        }
    }
    Ok(sides)
}

/// The nodes with this root.
fn class_of(alloc: Global, roots: &[u32], root: u32) -> Result<Side, NoMemory>
    requires { length roots.now ≤ side_room }
    ensures { IfOk result (λ side. side ≡ class (length roots.now) (slice_index roots.now) root) }
{
    let mut side = Side::empty(alloc, roots.len())?;
    for v in 0..roots.len() {
        side.put(v as u32, roots[v] == root);
    }
    Ok(side)
}
