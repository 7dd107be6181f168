ghost use Rattle.std.specs.Prelude.{◌≤◌, length, sum_by, All, IfOk};
ghost use Rattle.graph_core.specs.Trees.{IsForest};
ghost use Rattle.graph_core.specs.Walks.{AreDisjoint};
ghost use Rattle.graphic_matroid.specs.Forests.{AreMostForests};

use crate::component::components;
use crate::graphic::Graphic;
use graph_core::{Graph, NoMemory, NumberRows, Sides};
use matroid_union::{FreeParts, union};
use std::alloc::Global;

/// Disjoint forests, and a partition of the nodes by which no forests as many have more lines.
#[derive(Debug, Drop)]
pub struct Forests {
    /// The lines of each forest, by number.
    pub rows: NumberRows,
    /// The classes of the partition.
    pub classes: Sides,
}

/// `k` disjoint forests with the most lines together (Nash-Williams; Edmonds).
pub fn most_forests(alloc: Global, graph: &Graph, k: u32) -> Result<Forests, NoMemory>
    ensures { IfOk result (λ found. AreMostForests (length graph.now.names) graph.now.lines k found.rows found.classes) }
{
    graph.known();
    let mut matroid = Graphic::new(alloc, graph)?;
    let FreeParts { parts, reached } = union(alloc, &mut matroid, k)?;
    let classes = components(alloc, graph, &reached)?;
    Ok(Forests {
        rows: parts,
        classes,
    })
}

/// The law that as many other disjoint forests have no more lines, by the partition. It does no work.
pub fn no_more_lines(graph: &Graph, found: &Forests, other: &NumberRows)
    requires most { AreMostForests (length graph.now.names) graph.now.lines (length other.now) found.now.rows found.now.classes }
    requires forests { All (IsForest (length graph.now.names) graph.now.lines) other.now }
    requires disjoint { AreDisjoint other.now }
    ensures { sum_by length other.now ≤ sum_by length found.now.rows }
{
    graph.known();
}
