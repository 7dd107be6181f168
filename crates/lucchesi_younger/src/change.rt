ghost use Rattle.std.specs.Prelude.{◌≡◌, ◌+◌, ℕ, ◌<◌, ◌^◌, length, cond, sum, slice_set, IfOk, OnOk};
ghost use Rattle.std.specs.Bool.{OnFalse};
ghost use Rattle.graph_core.specs.Side.{has};
ghost use Rattle.lucchesi_younger.specs.Kept.{at, IsArc, IsIn, IsKept, AllKept, IsLate};
ghost use Rattle.lucchesi_younger.specs.Ways.{IsWay, IsExchanged};

use crate::force::find_forced;
use crate::held::Held;
use crate::marks::{add_taken, clear_left, marks_of, numbers_of};
use crate::work::{Forced, Step, Task, Work};
use graph_core::{Counts, Graph, Items, Line, NoMemory, Numbers, Side};
use std::alloc::Global;

/// The dijoin without the late arc and those that the steps leave, and with those that they take.
fn exchanged(alloc: Global, task: &Task, steps: &Items<Step>) -> Result<Numbers, NoMemory>
    requires kept { IsKept task.now.graph.now task.now.work.now task.now.late }
    requires late { IsLate task.now.graph.now task.now.work.now task.now.late task.now.line.tail task.now.line.head }
    requires way { IsWay task.now.graph.now task.now.work.now task.now.late task.now.line.head task.now.line.tail steps.now }
    ensures { IfOk result (λ join. IsExchanged task.now.graph.now task.now.late steps.now task.now.work.now.join join) }
{
    task.graph.known();
    let mut taken = marks_of(alloc, task.graph.line_count(), &task.work.join)?;
    *taken.item_mut(task.late) = false;
    clear_left(&mut taken, steps.as_slice());
    add_taken(&mut taken, steps.as_slice());
    let join = numbers_of(alloc, &taken)?;
    Ok(join)
}

/// Raises each count by one where its node is in the side.
fn raise_inside(potential: &mut Counts, side: &Side)
    requires alike { length side.now ≡ length potential.old }
    requires few { length side.now < 2 ^ 32 }
    requires room { (v : ℕ) → at potential.old v + 1 < 2 ^ 64 }
    ensures long { length potential.new ≡ length potential.old }
    ensures raised { (v : ℕ) → at potential.new v ≡ at potential.old v + cond (has side.now v) 1 0 }
{
    'nodes: for v in 0..side.len() {
        if side.has(v as u32) {
            *potential.item_mut(v) += 1;
        }
    }
}

/// Makes the late arc rise by its cost, or leaves it for others. Tells whether it was left.
fn mend(
    alloc: Global,
    graph: &Graph,
    work: &mut Work,
    held: &mut Held,
    line: Line,
    late: usize,
) -> Result<bool, NoMemory>
    requires kept { IsKept graph.now work.old late }
    requires arc { IsArc graph.now.lines late line }
    requires late { IsLate graph.now work.old late line.tail line.head }
    requires held { held.old.kernels ≡ record { graph = graph.now; join = work.old.join } }
    requires room { (v : ℕ) → at work.old.potential v + 1 < 2 ^ 64 }
    ensures kept { OnOk result (AllKept graph.now work.new) }
    ensures costs { OnOk result (work.new.costs ≡ work.old.costs) }
    ensures join { IfOk result (λ left. OnFalse left (work.new.join ≡ work.old.join)) }
    ensures held { IfOk result (λ left. OnFalse left (held.new.kernels ≡ held.old.kernels)) }
{
    graph.known();
    let task = Task {
        graph,
        work: &*work,
        late,
        line,
    };
    let forced = find_forced(alloc, &task, held)?;
    match forced {
        Forced::Way(steps) => {
            let join = exchanged(alloc, &task, &steps)?;
            work.join = join;
            Ok(true)
        }
        Forced::Shut(side) => {
            raise_inside(&mut work.potential, &side);
            Ok(false)
        }
    }
}

/// Raises the cost of an arc of the dijoin by one. Tells whether another dijoin took its place.
pub(crate) fn raise_by_one(
    alloc: Global,
    graph: &Graph,
    work: &mut Work,
    held: &mut Held,
    number: usize,
) -> Result<bool, NoMemory>
    requires kept { AllKept graph.now work.old }
    requires number { number < length graph.now.lines }
    requires taken { IsIn work.old.join number }
    requires held { held.old.kernels ≡ record { graph = graph.now; join = work.old.join } }
    requires room { sum work.old.costs + 1 < 2 ^ 64 }
    ensures kept { OnOk result (AllKept graph.now work.new) }
    ensures costs { OnOk result (work.new.costs ≡ slice_set work.old.costs number (at work.old.costs number + 1)) }
    ensures join { IfOk result (λ other. OnFalse other (work.new.join ≡ work.old.join)) }
    ensures held { IfOk result (λ other. OnFalse other (held.new.kernels ≡ held.old.kernels)) }
{
    let cost = *work.costs.item(number);
    *work.costs.item_mut(number) = cost + 1;
    let line = graph.line(number);
    let other = mend(alloc, graph, work, held, line, number)?;
    Ok(other)
}

/// Gives an arc that isn't in the dijoin a higher cost.
pub(crate) fn raise_free(work: &mut Work, number: usize, cost: u64)
    requires number { number < length work.old.costs }
    ensures costs { work.new.costs ≡ slice_set work.old.costs number cost }
    ensures join { work.new.join ≡ work.old.join }
    ensures potential { work.new.potential ≡ work.old.potential }
{
    *work.costs.item_mut(number) = cost;
}
