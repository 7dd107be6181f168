ghost use Rattle.std.specs.Prelude.{◌≡◌, ℕ, ◌+◌, ◌<◌, ◌≤◌, ◌↔◌, All, length, IsTrue, IfOk};
ghost use Rattle.std.specs.Bool.{OnTrue, OnFalse};
ghost use Rattle.graph_core.specs.Picked.{occurrences, mark, IsDistinct};

use crate::NoMemory;
use std::alloc::Global;

/// Marks the numbers of a row, and answers whether none stands twice in it or had a mark before. The first that does ends
/// it, and leaves the marks made so far.
pub fn mark_row(marks: &mut [bool], row: &[u32]) -> bool
    requires { All (λ j. j < length marks.old) row.now }
    ensures once { OnTrue result ((j : ℕ) → mark marks.new j ≡ mark marks.old j + occurrences j row.now) }
    ensures twice { OnFalse result ((j : ℕ) × (j < length marks.old) × (2 ≤ mark marks.old j + occurrences j row.now)) }
{
    for j in row {
        let place = *j as usize;
        if marks[place] {
            return false;
        }
        marks[place] = true;
    }
    true
}

/// Whether no number stands twice, where all are below `limit`.
pub fn are_distinct(alloc: Global, limit: usize, row: &[u32]) -> Result<bool, NoMemory>
    requires below { All (λ j. j < limit) row.now }
    ensures { IfOk result (λ distinct. IsTrue distinct ↔ IsDistinct row.now) }
{
    let mut marks = Vec::from_elem(alloc, false, limit)?;
    Ok(mark_row(&mut marks, row))
}
