ghost use Rattle.std.specs.Prelude.{◌≡◌, ◌+◌, ◌^◌, ◌<◌, ◌≤◌, [], ℕ, length, slice_index, sum, IfOk, OnOk};
ghost use Rattle.cut_fn.specs.Stars.{star_of};
ghost use Rattle.split_directed.specs.State.{left_of, rows_with, IsState, IsCoveredStar};
ghost use Rattle.split_directed.specs.Turn.{IsFewest, IsMostUpTo, IsLeft};
ghost use Rattle.split_directed.specs.Ways.{same, taken_in};
ghost use Rattle.graph_core.specs.Limits.{line_room, side_room};

use crate::half::Half;
use crate::least::least_over;
use cut_fn::ArcStar;
use graph_core::{NoMemory, Side, WeightedPairs};
use problem_defs::Way;
use std::alloc::Global;

/// A star that is being split off: the rows so far, and the two functions of what is left of it.
#[derive(Drop)]
pub struct Splitting<'a> {
    pub star: &'a ArcStar,
    pub rows: WeightedPairs,
    pub enter: Half,
    pub leave: Half,
}

impl<'a> Splitting<'a> {
    /// Nothing is split off yet.
    pub fn begin(alloc: Global, star: &'a ArcStar) -> Result<Splitting<'a>, NoMemory>
        requires { length star.now.graph.lines + sum star.now.into ≤ line_room }
        ensures star { IfOk result (λ state. state.star.now ≡ star.now) }
        ensures rows { IfOk result (λ state. state.rows ≡ []) }
        ensures state { IfOk result (λ state. IsState (length star.now.graph.names) (star_of star.now) state.enter state.leave) }
    {
        star.graph.known();
        let rows = WeightedPairs::new(alloc);
        let enter = Half::of_star(alloc, Way::Entering, star.graph.lines(), &star.into)?;
        let leave = Half::of_star(alloc, Way::Leaving, star.graph.lines(), &star.out)?;
        Ok(Splitting {
            star,
            rows,
            enter,
            leave,
        })
    }

    /// Splits off an arc from `u` and one to `t`, `c` times.
    pub fn split_off(&mut self, u: u32, t: u32, c: u64) -> Result<(), NoMemory>
        requires state { IsState (length self.old.star.now.graph.names) (left_of self.old.star.now self.old.rows) self.old.enter self.old.leave }
        requires u { u < length self.old.star.now.graph.names }
        requires t { t < length self.old.star.now.graph.names }
        requires out { c ≤ slice_index (left_of self.old.star.now self.old.rows).out u }
        requires into { c ≤ slice_index (left_of self.old.star.now self.old.rows).into t }
        ensures star { self.new.star.now ≡ self.old.star.now }
        ensures rows { OnOk result (self.new.rows ≡ rows_with self.old.rows u t c) }
        ensures state { OnOk result (IsState (length self.old.star.now.graph.names) (left_of self.old.star.now self.new.rows) self.new.enter self.new.leave) }
    {
        if c == 0 {
            return Ok(());
        }
        self.enter.split(Way::Entering, u, t, c)?;
        self.leave.split(Way::Leaving, u, t, c)?;
        self.rows.push((u, t, c))?;
        Ok(())
    }
}

/// The most up to `b` that `u` and `t` may be split off. Where it is less than `b`, a side that allows no more is written,
/// and it is answered of which function it is tight after so many were split off.
pub fn most_up_to(
    alloc: Global,
    state: &Splitting,
    k: u64,
    u: u32,
    t: u32,
    b: u64,
    block: &mut Side,
) -> Result<(u64, Way), NoMemory>
    requires k { k < 2 ^ 32 }
    requires state { IsState (length state.now.star.now.graph.names) (left_of state.now.star.now state.now.rows) state.now.enter state.now.leave }
    requires covered { IsCoveredStar (length state.now.star.now.graph.names) k (left_of state.now.star.now state.now.rows) }
    requires u { u < length state.now.star.now.graph.names }
    requires t { t < length state.now.star.now.graph.names }
    requires out { b ≤ slice_index (left_of state.now.star.now state.now.rows).out u }
    requires into { b ≤ slice_index (left_of state.now.star.now state.now.rows).into t }
    requires block { length block.old ≡ length state.now.star.now.graph.names }
    ensures block { length block.new ≡ length block.old }
    ensures most { IfOk result (λ r. IsMostUpTo (length state.now.star.now.graph.names) k (left_of state.now.star.now state.now.rows) u t b r.0 r.1 block.new) }
{
    let entering = least_over(alloc, &state.enter, &state.leave.counts, u, t, k + b, block)?;
    let leaving = least_over(
        alloc,
        &state.leave,
        &state.enter.counts,
        u,
        t,
        entering,
        block,
    )?;
    let way = if leaving < entering {
        Way::Leaving
    } else {
        Way::Entering
    };
    Ok((leaving - k, way))
}

/// The smaller of the counts of arcs from `u` and of arcs to `t`.
pub fn fewest(out: &[u64], into: &[u64], u: u32, t: u32) -> u64
    requires u { u < length out.now }
    requires t { t < length into.now }
    ensures { IsFewest out.now into.now u t result }
{
    out[u as usize].min(into[t as usize])
}

/// A node with an arc left that isn't in the side.
pub fn next_node(counts: &[u64], side: &Side) -> u32
    requires few { length counts.now ≤ side_room }
    requires long { length side.now ≡ length counts.now }
    requires some { (u : ℕ) × IsLeft counts.now side.now u }
    ensures { IsLeft counts.now side.now result }
{
    for u in 0..counts.len() as u32 {
        if counts[u as usize] > 0 && !side.has(u) {
            return u;
        }
    }
    unreachable!("an arc is left")
}

fn same(a: Way, b: Way) -> bool
    ensures { result ≡ same a b }
{
    match a {
        Way::Entering => matches!(b, Way::Entering),
        Way::Leaving => matches!(b, Way::Leaving),
    }
}

/// A tight side with a node, which takes in further ones; at first it is empty.
#[derive(Drop)]
pub struct Witness {
    pub way: Way,
    pub side: Side,
}

impl Witness {
    pub fn take(&mut self, way: Way, side: &Side, t: u32)
        requires long { length self.old.side ≡ length side.now }
        requires node { t < length side.now }
        ensures way { self.new.way ≡ way }
        ensures side { self.new.side ≡ taken_in self.old.way self.old.side way side.now t }
    {
        if same(self.way, way) && self.side.has(t) {
            self.side.join(side);
        } else {
            self.side.set_to(side);
        }
        self.way = way;
    }
}
