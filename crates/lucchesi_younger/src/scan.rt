ghost use Rattle.std.specs.Prelude.{◌≡◌, ◌+◌, ℕ, ◌<◌, ◌≤◌, ◌↔◌, length, IfOk, OnOk, IsTrue, false};
ghost use Rattle.std.specs.Bool.{OnFalse};
ghost use Rattle.graph_core.specs.Side.{has};
ghost use Rattle.lucchesi_younger.specs.Kept.{at, IsKept};
ghost use Rattle.lucchesi_younger.specs.Search.{IsSearch, Grows, IsArcForced, IsArcUnforced, PastArcs, PastJump, PastJumps, node};

use crate::held::Held;
use crate::search::Search;
use crate::work::{By, Step, Task, Work};
use graph_core::{Line, NoMemory};
use std::alloc::Global;

/// Whether the arc isn't fixed and rises by its cost.
fn is_full(work: &Work, line: Line, number: usize) -> bool
    requires rises { at work.now.potential line.tail ≤ at work.now.potential line.head }
    requires tail { line.tail < length work.now.potential }
    requires head { line.head < length work.now.potential }
    requires number { number < length work.now.costs }
    ensures { IsTrue result ↔ ((line.fixed ≡ false) × (at work.now.potential line.head ≡ at work.now.potential line.tail + at work.now.costs number)) }
{
    let tail = *work.potential.item(line.tail as usize);
    let head = *work.potential.item(line.head as usize);
    !line.fixed && head - tail == *work.costs.item(number)
}

/// The step by which an arc forces another node with this one.
fn arc_step(task: &Task, held: &Held, number: usize, node: u32) -> Option<Step>
    requires kept { IsKept task.now.graph.now task.now.work.now task.now.late }
    requires held { held.now.kernels ≡ record { graph = task.now.graph.now; join = task.now.work.now.join } }
    requires number { number < length task.now.graph.now.lines }
    ensures { IsArcForced task.now.graph.now task.now.work.now task.now.late number node result }
{
    task.graph.known();
    let line = task.graph.line(number);
    if line.head == node && is_full(task.work, line, number) {
        return Some(Step {
            by: By::Taken(number as u32),
            from: node,
            to: line.tail,
        });
    }
    if line.tail == node && number != task.late && *held.taken.item(number) {
        return Some(Step {
            by: By::Left(number as u32),
            from: node,
            to: line.head,
        });
    }
    None
}

/// Reaches the node that an arc forces with the one at a place.
fn scan_arc(
    task: &Task,
    held: &Held,
    search: &mut Search,
    place: usize,
    number: usize,
) -> Result<(), NoMemory>
    requires kept { IsKept task.now.graph.now task.now.work.now task.now.late }
    requires held { held.now.kernels ≡ record { graph = task.now.graph.now; join = task.now.work.now.join } }
    requires number { number < length task.now.graph.now.lines }
    requires search { IsSearch task.now.graph.now task.now.work.now task.now.late search.old.reached search.old.visits.items place }
    requires place { place < length search.old.visits.items }
    ensures search { OnOk result (IsSearch task.now.graph.now task.now.work.now task.now.late search.new.reached search.new.visits.items place) }
    ensures grows { OnOk result (Grows search.old.reached search.new.reached search.old.visits.items search.new.visits.items) }
    ensures past { OnOk result ((v : ℕ) → has search.new.reached v ≡ false → IsArcUnforced task.now.graph.now task.now.work.now task.now.late number (node search.old.visits.items place) v) }
{
    let from = search.visits[place].step.to;
    if let Some(step) = arc_step(task, held, number, from) {
        if !search.reached.has(step.to) {
            search.reach(step, place)?;
            return Ok(());
        }
    }
    Ok(())
}

/// Reaches each node that an arc forces with the one at a place.
fn scan_arcs(task: &Task, held: &Held, search: &mut Search, place: usize) -> Result<(), NoMemory>
    requires kept { IsKept task.now.graph.now task.now.work.now task.now.late }
    requires held { held.now.kernels ≡ record { graph = task.now.graph.now; join = task.now.work.now.join } }
    requires search { IsSearch task.now.graph.now task.now.work.now task.now.late search.old.reached search.old.visits.items place }
    requires place { place < length search.old.visits.items }
    ensures search { OnOk result (IsSearch task.now.graph.now task.now.work.now task.now.late search.new.reached search.new.visits.items place) }
    ensures grows { OnOk result (Grows search.old.reached search.new.reached search.old.visits.items search.new.visits.items) }
    ensures past { OnOk result (PastArcs task.now.graph.now task.now.work.now task.now.late (node search.old.visits.items place) search.new.reached (length task.now.graph.now.lines)) }
{
    'arcs: for number in 0..task.graph.line_count() {
        scan_arc(task, held, search, place, number)?;
    }
    Ok(())
}

/// Reaches a node, if the one at a place forces it by a jump.
pub(crate) fn try_jump(
    alloc: Global,
    task: &Task,
    held: &mut Held,
    search: &mut Search,
    place: usize,
    to: u32,
) -> Result<(), NoMemory>
    requires kept { IsKept task.now.graph.now task.now.work.now task.now.late }
    requires held { held.old.kernels ≡ record { graph = task.now.graph.now; join = task.now.work.now.join } }
    requires to { to < length task.now.graph.now.names }
    requires search { IsSearch task.now.graph.now task.now.work.now task.now.late search.old.reached search.old.visits.items place }
    requires place { place < length search.old.visits.items }
    ensures held { OnOk result (held.new.kernels ≡ held.old.kernels) }
    ensures search { OnOk result (IsSearch task.now.graph.now task.now.work.now task.now.late search.new.reached search.new.visits.items place) }
    ensures grows { OnOk result (Grows search.old.reached search.new.reached search.old.visits.items search.new.visits.items) }
    ensures past { OnOk result (has search.new.reached to ≡ false → PastJump task.now.graph.now task.now.work.now (node search.old.visits.items place) to) }
{
    let from = search.visits[place].step.to;
    if search.reached.has(to) {
        return Ok(());
    }
    let potential = &task.work.potential;
    if *potential.item(from as usize) != *potential.item(to as usize) {
        return Ok(());
    }
    let allowed = held.leads(alloc, from, to)?;
    if !allowed {
        return Ok(());
    }
    let step = Step {
        by: By::Jumped,
        from,
        to,
    };
    search.reach(step, place)?;
    Ok(())
}

/// Reaches each node that a jump forces with the one at a place, up to the wanted one.
fn scan_jumps(
    alloc: Global,
    task: &Task,
    held: &mut Held,
    search: &mut Search,
    place: usize,
    wanted: u32,
) -> Result<(), NoMemory>
    requires kept { IsKept task.now.graph.now task.now.work.now task.now.late }
    requires held { held.old.kernels ≡ record { graph = task.now.graph.now; join = task.now.work.now.join } }
    requires wanted { wanted < length task.now.graph.now.names }
    requires search { IsSearch task.now.graph.now task.now.work.now task.now.late search.old.reached search.old.visits.items place }
    requires place { place < length search.old.visits.items }
    ensures held { OnOk result (held.new.kernels ≡ held.old.kernels) }
    ensures search { OnOk result (IsSearch task.now.graph.now task.now.work.now task.now.late search.new.reached search.new.visits.items place) }
    ensures grows { OnOk result (Grows search.old.reached search.new.reached search.old.visits.items search.new.visits.items) }
    ensures past { OnOk result (has search.new.reached wanted ≡ false → PastJumps task.now.graph.now task.now.work.now (node search.old.visits.items place) search.new.reached (length task.now.graph.now.names)) }
{
    task.graph.known();
    try_jump(alloc, task, held, search, place, wanted)?;
    'nodes: for to in 0..task.graph.node_count() as u32 {
        if search.reached.has(wanted) {
            return Ok(());
        }
        try_jump(alloc, task, held, search, place, to)?;
    }
    Ok(())
}

/// Reaches each node that is forced with the one at a place, up to the wanted one. Where that place was reached
/// by a jump, its jumps lead to nodes that are reached already. Tells whether the wanted one is reached.
pub(crate) fn scan_place(
    alloc: Global,
    task: &Task,
    held: &mut Held,
    search: &mut Search,
    place: usize,
    wanted: u32,
) -> Result<bool, NoMemory>
    requires kept { IsKept task.now.graph.now task.now.work.now task.now.late }
    requires held { held.old.kernels ≡ record { graph = task.now.graph.now; join = task.now.work.now.join } }
    requires wanted { wanted < length task.now.graph.now.names }
    requires search { IsSearch task.now.graph.now task.now.work.now task.now.late search.old.reached search.old.visits.items place }
    requires place { place < length search.old.visits.items }
    ensures held { OnOk result (held.new.kernels ≡ held.old.kernels) }
    ensures search { OnOk result (IsSearch task.now.graph.now task.now.work.now task.now.late search.new.reached search.new.visits.items place) }
    ensures done { IfOk result (λ found. OnFalse found (IsSearch task.now.graph.now task.now.work.now task.now.late search.new.reached search.new.visits.items (place + 1))) }
    ensures found { IfOk result (λ found. found ≡ has search.new.reached wanted) }
    ensures grows { OnOk result (Grows search.old.reached search.new.reached search.old.visits.items search.new.visits.items) }
{
    scan_arcs(task, held, search, place)?;
    if search.reached.has(wanted) {
        return Ok(true);
    }
    if let By::Jumped = search.visits[place].step.by {
        return Ok(false);
    }
    scan_jumps(alloc, task, held, search, place, wanted)?;
    let found = search.reached.has(wanted);
    Ok(found)
}
