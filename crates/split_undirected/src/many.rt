ghost use Rattle.std.specs.Prelude.{◌≡◌, ◌<◌, ◌≤◌, ◌^◌, ℕ, List, true, false, length, slice_index, IfOk, OnOk};
ghost use Rattle.graph_core.specs.declared.graph.Line.{Line as LineOf};
ghost use Rattle.split_undirected.specs.CoveredStar.{room, is_candidate};
ghost use Rattle.split_undirected.specs.Underway.{IsUnderway, AreDone, IsTurn, IsAfterRow};
ghost use Rattle.split_undirected.specs.Split.{CanBeSplit};
ghost use Rattle.split_undirected.specs.Rows.{AreSplit};

use crate::largest::most_over;
use crate::rest::Rest;
use crate::witness::Witnesses;
use cut_fn::Star;
use graph_core::{NoMemory, Side, WeightedPairs};
use std::alloc::Global;

/// Splits `q` pairs of `u` and `v` off, and puts their row behind the others.
fn split_row(
    rest: &mut Rest,
    rows: &mut WeightedPairs,
    u: u32,
    v: u32,
    q: u64,
) -> Result<(), NoMemory>
    requires u { u < length rest.old.counts.items }
    requires v { v < length rest.old.counts.items }
    requires room { q ≤ room (slice_index rest.old.counts.items) u v }
    requires small { q < 2 ^ 32 }
    ensures { OnOk result (IsAfterRow u v q rows.old rest.old.arcs.items rest.old.counts.items rows.new rest.new.arcs.items rest.new.counts.items) }
{
    if q > 0 {
        rest.split(u, v, q)?;
        rows.push((u, v, q))?;
    }
    Ok(())
}

/// Splits off as many pairs of `u` and its candidate `v` as can be. Where there are edges for more, a dangerous side holds both
/// afterwards.
fn try_pair(
    alloc: Global,
    rest: &mut Rest,
    rows: &mut WeightedPairs,
    witnesses: &mut Witnesses,
    k: u32,
    u: u32,
    v: u32,
) -> Result<(), NoMemory>
    requires two { 2 ≤ k }
    requires underway { (ls : List LineOf) × (w : ℕ → ℕ) × IsUnderway (length rest.old.counts.items) k ls w rows.old rest.old.arcs.items rest.old.counts.items }
    requires turn { IsTurn (length rest.old.counts.items) k u rows.old rest.old.arcs.items rest.old.counts.items witnesses.old.near witnesses.old.far }
    requires u { u < length rest.old.counts.items }
    requires v { v < length rest.old.counts.items }
    requires candidate { is_candidate (slice_index rest.old.counts.items) u witnesses.old.near witnesses.old.far v ≡ true }
    ensures long { OnOk result (length rest.new.counts.items ≡ length rest.old.counts.items) }
    ensures underway { OnOk result ((ls : List LineOf) (w : ℕ → ℕ) → IsUnderway (length rest.old.counts.items) k ls w rows.old rest.old.arcs.items rest.old.counts.items → IsUnderway (length rest.old.counts.items) k ls w rows.new rest.new.arcs.items rest.new.counts.items) }
    ensures turn { OnOk result (IsTurn (length rest.old.counts.items) k u rows.new rest.new.arcs.items rest.new.counts.items witnesses.new.near witnesses.new.far) }
    ensures less { OnOk result ((x : ℕ) → is_candidate (slice_index rest.new.counts.items) u witnesses.new.near witnesses.new.far x ≡ true → is_candidate (slice_index rest.old.counts.items) u witnesses.old.near witnesses.old.far x ≡ true) }
    ensures gone { OnOk result (is_candidate (slice_index rest.new.counts.items) u witnesses.new.near witnesses.new.far v ≡ false) }
    ensures falls { OnOk result ((x : ℕ) → slice_index rest.new.counts.items x ≤ slice_index rest.old.counts.items x) }
{
    let room = rest.room(u, v);
    let mut side = Side::empty(alloc, rest.counts.len())?;
    let q = most_over(alloc, rest, k, u, v, &mut side)?;
    split_row(rest, rows, u, v, q)?;
    if q < room {
        witnesses.absorb(&side);
    }
    Ok(())
}

/// Splits all edges to `u` off.
fn split_node(
    alloc: Global,
    rest: &mut Rest,
    rows: &mut WeightedPairs,
    k: u32,
    u: u32,
) -> Result<(), NoMemory>
    requires two { 2 ≤ k }
    requires underway { (ls : List LineOf) × (w : ℕ → ℕ) × IsUnderway (length rest.old.counts.items) k ls w rows.old rest.old.arcs.items rest.old.counts.items }
    requires done { AreDone rows.old rest.old.counts.items }
    requires u { u < length rest.old.counts.items }
    ensures long { OnOk result (length rest.new.counts.items ≡ length rest.old.counts.items) }
    ensures underway { OnOk result ((ls : List LineOf) (w : ℕ → ℕ) → IsUnderway (length rest.old.counts.items) k ls w rows.old rest.old.arcs.items rest.old.counts.items → IsUnderway (length rest.old.counts.items) k ls w rows.new rest.new.arcs.items rest.new.counts.items) }
    ensures done { OnOk result (AreDone rows.new rest.new.counts.items) }
    ensures spent { OnOk result (slice_index rest.new.counts.items u ≡ 0) }
    ensures falls { OnOk result ((x : ℕ) → slice_index rest.new.counts.items x ≤ slice_index rest.old.counts.items x) }
{
    let mut witnesses = Witnesses::none(alloc, rest.counts.len())?;
    'turns: while rest.counts[u as usize] > 0 {
        let v = witnesses.next(rest, u);
        try_pair(alloc, rest, rows, &mut witnesses, k, u, v)?;
    }
    Ok(())
}

/// Splits all edges of a star off, in rows (u, v, q): q edges to u and q to v become q edges between them, or none where u is
/// v. Each row has as many as can be split off after the rows before it, and no two nodes are tried twice (Lovász 1979).
pub fn split_many(alloc: Global, star: &Star, k: u32) -> Result<WeightedPairs, NoMemory>
    requires { CanBeSplit k star.now }
    ensures { IfOk result (AreSplit k star.now) }
{
    star.graph.known();
    let mut rest = Rest::of_star(alloc, star)?;
    let mut rows = WeightedPairs::new(alloc);
    for u in 0..star.graph.node_count() as u32 {
        split_node(alloc, &mut rest, &mut rows, k, u)?;
    }
    Ok(rows)
}
