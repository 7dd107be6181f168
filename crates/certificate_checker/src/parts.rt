ghost use Rattle.std.specs.Prelude.{◌≡◌, ◌<◌, ◌↔◌, All, length, IsTrue, IfOk};
ghost use Rattle.graph_core.specs.Trees.{IsForest};
ghost use Rattle.problem_defs.specs.Shaped.{AreRows};

use graph_core::{Graph, NoMemory, NumberRows};
use std::alloc::Global;

/// Whether the row is a forest. It takes memory only where a number stands there: a text may have millions of empty parts.
fn is_forest(alloc: Global, graph: &Graph, row: &[u32]) -> Result<bool, NoMemory>
    requires { All (λ j. j < length graph.now.lines) row.now }
    ensures { IfOk result (λ forest. IsTrue forest ↔ IsForest (length graph.now.names) graph.now.lines row.now) }
{
    if row.is_empty() {
        return Ok(true);
    }
    graph.is_forest(alloc, row)
}

/// Whether each row is a forest.
pub fn are_forests(alloc: Global, graph: &Graph, rows: &NumberRows) -> Result<bool, NoMemory>
    requires { AreRows (length graph.now.lines) rows.now }
    ensures { IfOk result (λ forests. IsTrue forests ↔ All (IsForest (length graph.now.names) graph.now.lines) rows.now) }
{
    for row in rows.as_slice() {
        if !is_forest(alloc, graph, row.as_slice())? {
            return Ok(false);
        }
    }
    Ok(true)
}

/// Whether each row has as many numbers.
pub fn have_length(rows: &NumberRows, count: usize) -> bool
    ensures { IsTrue result ↔ All (λ row. length row ≡ count) rows.now }
{
    rows.as_slice().iter().all(|row| row.len() == count)
}
