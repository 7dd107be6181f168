ghost use Rattle.std.specs.Prelude.{◌≡◌, ℕ, ◌+◌, ◌<◌, ◌≤◌, ◌↔◌, true, All, length, IsTrue, IfOk};
ghost use Rattle.std.specs.List.{concat};
ghost use Rattle.std.specs.Bool.{OnTrue, OnFalse};
ghost use Rattle.graph_core.specs.Limits.{line_room};
ghost use Rattle.graph_core.specs.Picked.{occurrences, mark};
ghost use Rattle.graph_core.specs.Walks.{AreDisjoint};
ghost use Rattle.problem_defs.specs.Shaped.{AreRows};

use graph_core::{NoMemory, NumberRows, Numbers, mark_row};
use std::alloc::Global;

/// Marks the numbers of all rows, up to one that has a mark already.
fn mark_rows(marks: &mut [bool], rows: &[Numbers]) -> bool
    requires { AreRows (length marks.old) rows.now }
    ensures once { OnTrue result ((j : ℕ) → mark marks.new j ≡ mark marks.old j + occurrences j (concat rows.now)) }
    ensures twice { OnFalse result ((j : ℕ) × (j < length marks.old) × (2 ≤ mark marks.old j + occurrences j (concat rows.now))) }
{
    for row in rows {
        if !mark_row(marks, row.as_slice()) {
            return false;
        }
    }
    true
}

/// Whether no number stands twice in all rows together.
pub fn are_disjoint(alloc: Global, limit: usize, rows: &NumberRows) -> Result<bool, NoMemory>
    requires few { limit ≤ line_room }
    requires below { AreRows limit rows.now }
    ensures { IfOk result (λ disjoint. IsTrue disjoint ↔ AreDisjoint rows.now) }
{
    let mut marks = Vec::from_elem(alloc, false, limit)?;
    Ok(mark_rows(&mut marks, rows.as_slice()))
}

/// Whether each number has a mark.
fn are_all_marked(marks: &[bool]) -> bool
    ensures { IsTrue result ↔ All (λ b. b ≡ true) marks.now }
{
    marks.iter().all(|mark| *mark)
}

/// Whether each number below the limit stands exactly once in all rows together.
pub fn cover_once(alloc: Global, limit: usize, rows: &NumberRows) -> Result<bool, NoMemory>
    requires few { limit ≤ line_room }
    requires below { AreRows limit rows.now }
    ensures { IfOk result (λ once. IsTrue once ↔ ((j : ℕ) → j < limit → occurrences j (concat rows.now) ≡ 1)) }
{
    let mut marks = Vec::from_elem(alloc, false, limit)?;
    if !mark_rows(&mut marks, rows.as_slice()) {
        return Ok(false);
    }
    Ok(are_all_marked(&marks))
}
