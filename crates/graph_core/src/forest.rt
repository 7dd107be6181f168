ghost use Rattle.std.specs.Prelude.{◌≡◌, ◌<◌, ◌≤◌, ◌^◌, ◌↔◌, ℕ, length, slice_index, All, IsTrue, IfOk};
ghost use Rattle.graph_core.specs.Limits.{node_room};
ghost use Rattle.graph_core.specs.Labels.{joined, splits};
ghost use Rattle.graph_core.specs.Trees.{IsForest};

use crate::NoMemory;
use crate::graph::{Graph, Line};
use std::alloc::Global;

/// Each of `n` nodes as a class of its own, by labels.
fn own_labels(alloc: Global, n: usize) -> Result<Vec<u32>, NoMemory>
    requires { n ≤ node_room }
    ensures long { IfOk result (λ labels. length labels.items ≡ n) }
    ensures each { IfOk result (λ labels. (v : ℕ) → v < n → slice_index labels.items v ≡ v) }
{
    let mut labels = Vec::with_capacity(alloc, n)?;
    for v in 0..n as u32 {
        labels.push(v)?;
    }
    Ok(labels)
}

/// Gives the nodes with one label another.
fn relabel(labels: &mut [u32], old: u32, new: u32)
    ensures long { length labels.new ≡ length labels.old }
    ensures joined { (v : ℕ) → v < length labels.old → slice_index labels.new v ≡ joined (slice_index labels.old) old new v }
{
    for v in 0..labels.len() {
        if labels[v] == old {
            labels[v] = new;
        }
    }
}

/// Makes one class of those of the line's two ends, and says whether they were two.
fn join_ends(labels: &mut [u32], line: Line) -> bool
    requires tail { line.tail < length labels.old }
    requires head { line.head < length labels.old }
    ensures long { length labels.new ≡ length labels.old }
    ensures two { result ≡ splits (slice_index labels.old) line }
    ensures joined { (v : ℕ) → v < length labels.old → slice_index labels.new v ≡ joined (slice_index labels.old) (slice_index labels.old line.tail) (slice_index labels.old line.head) v }
{
    let tail = labels[line.tail as usize];
    let head = labels[line.head as usize];
    relabel(labels, tail, head);
    tail != head
}

impl Graph {
    /// Whether the lines with these numbers are a forest, none named twice. It joins the classes of their ends, line by line.
    pub fn is_forest(&self, alloc: Global, row: &[u32]) -> Result<bool, NoMemory>
        requires { All (λ j. j < length self.now.lines) row.now }
        ensures { IfOk result (λ is. IsTrue is ↔ IsForest (length self.now.names) self.now.lines row.now) }
    {
        self.known();
        let mut labels = own_labels(alloc, self.node_count())?;
        for j in row {
            if !join_ends(&mut labels, self.line(*j as usize)) {
                return Ok(false);
            }
        }
        Ok(true)
    }
}
