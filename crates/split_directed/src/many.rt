ghost use Rattle.std.specs.Prelude.{◌≡◌, ◌+◌, ◌^◌, ◌<◌, ◌≤◌, length, slice_index, sum, IfOk, OnOk};
ghost use Rattle.cut_fn.specs.Covered.{IsCovered};
ghost use Rattle.split_directed.specs.Allowed.{IsMost};
ghost use Rattle.split_directed.specs.Rows.{SplitOff};
ghost use Rattle.cut_fn.specs.Stars.{star_enter, star_leave, star_of};
ghost use Rattle.split_directed.specs.State.{left_of, IsState};
ghost use Rattle.split_directed.specs.Turn.{IsLeft, IsBefore, IsTurn, IsStep};
ghost use Rattle.graph_core.specs.Limits.{line_room};

use crate::state::{Splitting, Witness, fewest, most_up_to, next_node};
use cut_fn::ArcStar;
use graph_core::{NoMemory, Side, WeightedPairs};
use problem_defs::Way;
use std::alloc::Global;

/// Splits off `u` and `t` as often as they may be. Where a side allows no more, the witness takes it in.
fn step(
    alloc: Global,
    k: u64,
    u: u32,
    t: u32,
    state: &mut Splitting,
    witness: &mut Witness,
    block: &mut Side,
) -> Result<(), NoMemory>
    requires k { k < 2 ^ 32 }
    requires state { IsState (length state.old.star.now.graph.names) (left_of state.old.star.now state.old.rows) state.old.enter state.old.leave }
    requires turn { IsTurn (length state.old.star.now.graph.names) k t (star_of state.old.star.now) state.old.rows witness.old.way witness.old.side }
    requires u { IsLeft (left_of state.old.star.now state.old.rows).out witness.old.side u }
    requires t { t < length state.old.star.now.graph.names }
    requires some { 1 ≤ slice_index (left_of state.old.star.now state.old.rows).into t }
    requires block { length block.old ≡ length state.old.star.now.graph.names }
    ensures star { state.new.star.now ≡ state.old.star.now }
    ensures block { length block.new ≡ length block.old }
    ensures state { OnOk result (IsState (length state.old.star.now.graph.names) (left_of state.old.star.now state.new.rows) state.new.enter state.new.leave) }
    ensures step { OnOk result (IsStep (length state.old.star.now.graph.names) k t (star_of state.old.star.now) state.old.rows state.new.rows witness.old.side witness.new.way witness.new.side) }
{
    let most = fewest(&state.leave.counts, &state.enter.counts, u, t);
    let (count, way) = most_up_to(alloc, state, k, u, t, most, block)?;
    state.split_off(u, t, count)?;
    if count < most {
        witness.take(way, block, t);
    }
    Ok(())
}

/// Splits off all arcs to node `t`.
fn split_at(alloc: Global, k: u64, t: u32, state: &mut Splitting) -> Result<(), NoMemory>
    requires k { k < 2 ^ 32 }
    requires state { IsState (length state.old.star.now.graph.names) (left_of state.old.star.now state.old.rows) state.old.enter state.old.leave }
    requires before { IsBefore (length state.old.star.now.graph.names) k t (star_of state.old.star.now) state.old.rows }
    requires t { t < length state.old.star.now.graph.names }
    ensures star { state.new.star.now ≡ state.old.star.now }
    ensures state { OnOk result (IsState (length state.old.star.now.graph.names) (left_of state.old.star.now state.new.rows) state.new.enter state.new.leave) }
    ensures before { OnOk result (IsBefore (length state.old.star.now.graph.names) k (t + 1) (star_of state.old.star.now) state.new.rows) }
{
    state.star.graph.known();
    let n = state.star.graph.node_count();
    let mut witness = Witness {
        way: Way::Entering,
        side: Side::empty(alloc, n)?,
    };
    let mut block = Side::empty(alloc, n)?;
    'turns: while state.enter.counts[t as usize] > 0 {
        let u = next_node(&state.leave.counts, &witness.side);
        step(alloc, k, u, t, state, &mut witness, &mut block)?;
    }
    Ok(())
}

/// Splits off the whole star, in rows (u, t, c): an arc from u and one to t, c times. Each row has the most that may be split
/// off in the star after the rows before it, so no pair of nodes stands in two (Mader 1982).
pub fn split_many(alloc: Global, star: &ArcStar, k: u32) -> Result<WeightedPairs, NoMemory>
    requires room { length star.now.graph.lines + sum star.now.into ≤ line_room }
    requires same { sum star.now.into ≡ sum star.now.out }
    requires enters { IsCovered (length star.now.graph.names) k (star_enter (star_of star.now)) }
    requires leaves { IsCovered (length star.now.graph.names) k (star_leave (star_of star.now)) }
    ensures { IfOk result (SplitOff (length star.now.graph.names) k (star_of star.now)) }
{
    star.graph.known();
    let mut state = Splitting::begin(alloc, star)?;
    for t in 0..star.graph.node_count() as u32 {
        split_at(alloc, k as u64, t, &mut state)?;
    }
    Ok(state.rows)
}

/// How often an arc from `u` and one to `t` may be split off, so that at least `k` arcs still enter and leave each proper side.
pub fn most(alloc: Global, star: &ArcStar, k: u32, u: u32, t: u32) -> Result<u64, NoMemory>
    requires room { length star.now.graph.lines + sum star.now.into ≤ line_room }
    requires u { u < length star.now.graph.names }
    requires t { t < length star.now.graph.names }
    requires enters { IsCovered (length star.now.graph.names) k (star_enter (star_of star.now)) }
    requires leaves { IsCovered (length star.now.graph.names) k (star_leave (star_of star.now)) }
    ensures { IfOk result (IsMost (length star.now.graph.names) k (star_of star.now) u t) }
{
    star.graph.known();
    let state = Splitting::begin(alloc, star)?;
    let mut block = Side::empty(alloc, star.graph.node_count())?;
    let most = fewest(&state.leave.counts, &state.enter.counts, u, t);
    let (count, _) = most_up_to(alloc, &state, k as u64, u, t, most, &mut block)?;
    Ok(count)
}
