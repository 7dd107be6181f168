ghost use Rattle.std.specs.Prelude.{◌≡◌, ◌+◌, ◌<◌, ◌≤◌, ℕ, length, slice_index, All, IfOk, OnOk};
ghost use Rattle.graph_core.specs.Limits.{node_room};
ghost use Rattle.graph_core.specs.Graph.{Fits};
ghost use Rattle.graph_core.specs.Labels.{joined};
ghost use Rattle.nw_orientation.specs.Thin.{HasForest, IsThin};

use graph_core::{Line, NoMemory};
use std::alloc::Global;

/// Each of `n` nodes as a class of its own, by labels.
fn own_labels(alloc: Global, n: usize) -> Result<Vec<u32>, NoMemory>
    requires { n ≤ node_room }
    ensures long { IfOk result (λ labels. length labels.items ≡ n) }
    ensures each { IfOk result (λ labels. (v : ℕ) → v < n → slice_index labels.items v ≡ v) }
{
    let mut labels = Vec::with_capacity(alloc, n)?;
    for v in 0..n as u32 {
        labels.push(v)?;
    }
    Ok(labels)
}

/// Gives the nodes with one label another.
fn relabel(labels: &mut [u32], old: u32, new: u32)
    ensures long { length labels.new ≡ length labels.old }
    ensures joined { (v : ℕ) → v < length labels.old → slice_index labels.new v ≡ joined (slice_index labels.old) old new v }
{
    for v in 0..labels.len() {
        if labels[v] == old {
            labels[v] = new;
        }
    }
}

/// Marks unmarked edges that are a forest and join what all of those that are left could join.
fn grow_forest(alloc: Global, n: usize, lines: &[Line], marks: &mut [bool]) -> Result<(), NoMemory>
    requires nodes { n ≤ node_room }
    requires ends { All (Fits n) lines.now }
    requires long { length marks.old ≡ length lines.now }
    ensures { OnOk result (HasForest lines.now marks.old marks.new) }
{
    let mut labels = own_labels(alloc, n)?;
    for (j, line) in lines.iter().enumerate() {
        let tail = labels[line.tail as usize];
        let head = labels[line.head as usize];
        if !marks[j] && tail != head {
            relabel(&mut labels, tail, head);
            marks[j] = true;
        }
    }
    Ok(())
}

/// Marks `c` forests, each a largest one of the edges outside those before it. Of the edges that leave a side they keep `c`,
/// or all (Nagamochi and Ibaraki 1992).
pub(crate) fn thin(alloc: Global, n: usize, lines: &[Line], c: u64) -> Result<Vec<bool>, NoMemory>
    requires nodes { n ≤ node_room }
    requires ends { All (Fits n) lines.now }
    ensures { IfOk result (λ marks. IsThin c lines.now marks.items) }
{
    let mut marks = Vec::from_elem(alloc, false, lines.len())?;
    for forest in 0..c {
        grow_forest(alloc, n, lines, &mut marks)?;
    }
    Ok(marks)
}
