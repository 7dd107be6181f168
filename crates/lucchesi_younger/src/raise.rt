ghost use Rattle.std.specs.Prelude.{◌≡◌, ◌+◌, ℕ, ◌<◌, ◌≤◌, ◌^◌, length, replicate, sum, IfOk, OnOk};
ghost use Rattle.std.specs.Bool.{OnFalse};
ghost use Rattle.problem_defs.specs.Dijoin.{IsFeasible};
ghost use Rattle.lucchesi_younger.specs.Kept.{at, AllKept, IsSolved};
ghost use Rattle.lucchesi_younger.specs.Spent.{IsSpent, IsRaised, AreRisen};

use crate::change::{raise_by_one, raise_free};
use crate::dual::all_pieces;
use crate::held::Held;
use crate::marks::marks_of;
use crate::work::{Solved, Work};
use graph_core::{Counts, Graph, NoMemory, Numbers};
use std::alloc::Global;

/// Raises the cost of an arc: at once, if the arc isn't in the dijoin, and else one by one, as long as the dijoin
/// stays. Tells whether another one took its place.
fn raise_arc(
    alloc: Global,
    graph: &Graph,
    work: &mut Work,
    held: &mut Held,
    number: usize,
    cost: u64,
) -> Result<bool, NoMemory>
    requires kept { AllKept graph.now work.old }
    requires number { number < length graph.now.lines }
    requires held { held.old.kernels ≡ record { graph = graph.now; join = work.old.join } }
    requires more { at work.old.costs number ≤ cost }
    requires room { sum work.old.costs + cost < 2 ^ 64 }
    ensures kept { OnOk result (AllKept graph.now work.new) }
    ensures raised { IfOk result (λ other. IsRaised number cost work.old.costs work.new.costs other) }
    ensures join { IfOk result (λ other. OnFalse other (work.new.join ≡ work.old.join)) }
    ensures held { IfOk result (λ other. OnFalse other (held.new.kernels ≡ held.old.kernels)) }
{
    if !*held.taken.item(number) {
        raise_free(work, number, cost);
        return Ok(false);
    }
    'units: for unit in *work.costs.item(number)..cost {
        let other = raise_by_one(alloc, graph, work, held, number)?;
        if other {
            return Ok(true);
        }
    }
    Ok(false)
}

/// Raises the costs of the arcs from a number on, as long as the dijoin stays. Gives the number of the next one.
fn raise_held(
    alloc: Global,
    graph: &Graph,
    work: &mut Work,
    held: &mut Held,
    costs: &Counts,
    from: usize,
) -> Result<usize, NoMemory>
    requires kept { AllKept graph.now work.old }
    requires held { held.old.kernels ≡ record { graph = graph.now; join = work.old.join } }
    requires long { length costs.now ≡ length graph.now.lines }
    requires room { sum costs.now < 2 ^ 63 }
    requires spent { IsSpent graph.now.lines costs.now from work.old.costs }
    requires some { from < length graph.now.lines }
    ensures kept { OnOk result (AllKept graph.now work.new) }
    ensures within { IfOk result (λ next. next ≤ length graph.now.lines) }
    ensures spent { IfOk result (λ next. IsSpent graph.now.lines costs.now next work.new.costs) }
    ensures more { IfOk result (λ next. from + sum work.old.costs < next + sum work.new.costs) }
{
    'arcs: for number in from..graph.line_count() {
        if !graph.line(number).fixed {
            let other = raise_arc(alloc, graph, work, held, number, *costs.item(number))?;
            if other {
                return Ok(number);
            }
        }
    }
    Ok(graph.line_count())
}

/// Raises the costs of the arcs from a number on with one dijoin. Gives the number of the next one.
fn raise_on(
    alloc: Global,
    graph: &Graph,
    work: &mut Work,
    costs: &Counts,
    from: usize,
) -> Result<usize, NoMemory>
    requires kept { AllKept graph.now work.old }
    requires long { length costs.now ≡ length graph.now.lines }
    requires room { sum costs.now < 2 ^ 63 }
    requires spent { IsSpent graph.now.lines costs.now from work.old.costs }
    requires some { from < length graph.now.lines }
    ensures kept { OnOk result (AllKept graph.now work.new) }
    ensures within { IfOk result (λ next. next ≤ length graph.now.lines) }
    ensures spent { IfOk result (λ next. IsSpent graph.now.lines costs.now next work.new.costs) }
    ensures more { IfOk result (λ next. from + sum work.old.costs < next + sum work.new.costs) }
{
    let join = copy_of(alloc, &work.join)?;
    let mut held = Held::new(alloc, graph, &join)?;
    let next = raise_held(alloc, graph, work, &mut held, costs, from)?;
    Ok(next)
}

/// Raises the costs of the arcs outside the dijoin at once, but for fixed ones. If they rose in their turn, each arc of
/// the dijoin before them would be exchanged for one that costs nothing yet, and that one again.
fn raise_untaken(
    alloc: Global,
    graph: &Graph,
    work: &mut Work,
    costs: &Counts,
) -> Result<(), NoMemory>
    requires kept { AllKept graph.now work.old }
    requires within { (j : ℕ) → at work.old.costs j ≤ at costs.now j }
    requires long { length costs.now ≡ length graph.now.lines }
    ensures kept { OnOk result (AllKept graph.now work.new) }
    ensures within { OnOk result ((j : ℕ) → at work.new.costs j ≤ at costs.now j) }
    ensures risen { OnOk result (AreRisen graph.now.lines work.old.join costs.now (length graph.now.lines) work.old.costs work.new.costs) }
{
    graph.known();
    let taken = marks_of(alloc, graph.line_count(), &work.join)?;
    'arcs: for number in 0..graph.line_count() {
        if !graph.line(number).fixed && !*taken.item(number) {
            raise_free(work, number, *costs.item(number));
        }
    }
    Ok(())
}

/// Raises the cost of each arc that isn't fixed.
fn raise_all(alloc: Global, graph: &Graph, work: &mut Work, costs: &Counts) -> Result<(), NoMemory>
    requires kept { AllKept graph.now work.old }
    requires within { (j : ℕ) → at work.old.costs j ≤ at costs.now j }
    requires long { length costs.now ≡ length graph.now.lines }
    requires room { sum costs.now < 2 ^ 63 }
    ensures kept { OnOk result (AllKept graph.now work.new) }
    ensures spent { OnOk result (IsSpent graph.now.lines costs.now (length graph.now.lines) work.new.costs) }
{
    let mut number = 0;
    'joins: while number < graph.line_count() {
        number = raise_on(alloc, graph, work, costs, number)?;
    }
    Ok(())
}

fn zeros(alloc: Global, n: usize) -> Result<Counts, NoMemory>
    ensures { IfOk result (λ counts. counts ≡ replicate n 0) }
{
    Ok(Counts::from_vec(Vec::from_elem(alloc, 0, n)?))
}

fn copy_of(alloc: Global, numbers: &Numbers) -> Result<Numbers, NoMemory>
    ensures { IfOk result (λ copy. copy ≡ numbers.now) }
{
    Ok(Numbers::from_vec(Vec::from_slice(alloc, numbers.as_slice())?))
}

/// A least dijoin for whole costs, from any dijoin without fixed arcs.
pub(crate) fn solve(
    alloc: Global,
    graph: &Graph,
    join: Numbers,
    costs: &Counts,
) -> Result<Solved, NoMemory>
    requires feasible { IsFeasible graph.now join }
    requires long { length costs.now ≡ length graph.now.lines }
    requires room { sum costs.now < 2 ^ 63 }
    ensures { IfOk result (λ solved. IsSolved graph.now costs.now solved.join solved.sides) }
{
    graph.known();
    let first = zeros(alloc, graph.line_count())?;
    let potential = zeros(alloc, graph.node_count())?;
    let mut work = Work {
        join,
        costs: first,
        potential,
    };
    raise_untaken(alloc, graph, &mut work, costs)?;
    raise_all(alloc, graph, &mut work, costs)?;
    let sides = all_pieces(alloc, graph, &work)?;
    Ok(Solved {
        join: work.join,
        sides,
    })
}
