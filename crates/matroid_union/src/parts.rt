ghost use Rattle.std.specs.Prelude.{◌≡◌, ◌^◌, ℕ, ◌<◌, length, replicate, IfOk, OnOk, IfSome, Some, None, true, false, []};
ghost use Rattle.graph_core.specs.Side.{has};
ghost use Rattle.matroid_union.specs.Growing.{AreKept, AreFilled};
ghost use Rattle.matroid_union.specs.Parts.{own_of, part, rows_of, IsPacking};
ghost use Rattle.matroid_union.specs.Search.{AreDead};
ghost use Rattle.matroid_union.specs.Union.{IsUnion};

use crate::exchange::exchange;
use crate::greedy::take_freely;
use crate::growing::{ReachedSets, fill_sets, no_sets, none_reached};
use crate::matroid::Matroid;
use crate::search::{Search, find_end};
use graph_core::{Items, Marks, NoMemory, NumberRows, Numbers};
use std::alloc::Global;

/// Disjoint free sets, and elements that show that they are most: those reached from the rest by exchanges.
#[derive(Debug, Drop)]
pub struct FreeParts {
    /// The elements of each set, in the order of their numbers.
    pub parts: NumberRows,
    /// A mark for each element that is reached.
    pub reached: Marks,
}

/// The most elements in `k` disjoint free sets (Edmonds 1968), by shortest exchange paths.
pub fn union<M: Matroid>(alloc: Global, matroid: &mut M, k: u32) -> Result<FreeParts, NoMemory>
    requires { M.count matroid.old < 2 ^ 32 }
    ensures same { matroid.new ≡ matroid.old }
    ensures union { IfOk result (λ r. IsUnion (M.count matroid.old) (M.free matroid.old) k r.parts r.reached) }
{
    let mut owner = no_owners(alloc, matroid.size())?;
    let reached = pack(alloc, &*matroid, &mut owner, k)?;
    let parts = all_rows(alloc, &owner, k)?;
    Ok(FreeParts { parts, reached })
}

/// Adds to the parts until they have the most elements, and gives the dead ones.
fn pack<M: Matroid>(
    alloc: Global,
    matroid: &M,
    owner: &mut [Option<u32>],
    k: u32,
) -> Result<Marks, NoMemory>
    requires all { length owner.old ≡ M.count matroid.now }
    requires few { M.count matroid.now < 2 ^ 32 }
    requires none { (e : ℕ) → own_of owner.old e ≡ None }
    ensures packing { OnOk result (IsPacking (M.count matroid.now) (M.free matroid.now) k (own_of owner.new)) }
    ensures dead { IfOk result (AreDead (M.count matroid.now) (M.free matroid.now) k (own_of owner.new)) }
    ensures rest { IfOk result (λ dead. (e : ℕ) → e < M.count matroid.now → own_of owner.new e ≡ None → has dead e ≡ true) }
{
    let mut search = Search::new(alloc, owner.len())?;
    let mut whole = no_sets(alloc, matroid, k)?;
    let mut met = none_reached(alloc, matroid, k)?;
    take_freely(matroid, &mut whole, owner, k);
    grow(matroid, &mut whole, &mut met, owner, &mut search, k)?;
    let Search {
        dead,
        reached: _,
        queue: _,
        back: _,
    } = search;
    Ok(dead)
}

/// Searches from each element that no part has, until it is in a part or dead.
fn grow<M: Matroid>(
    matroid: &M,
    whole: &mut Items<M::Set>,
    met: &mut ReachedSets<M::Set>,
    owner: &mut [Option<u32>],
    search: &mut Search,
    k: u32,
) -> Result<(), NoMemory>
    requires all { length owner.old ≡ M.count matroid.now }
    requires few { M.count matroid.now < 2 ^ 32 }
    requires packing { IsPacking (M.count matroid.now) (M.free matroid.now) k (own_of owner.old) }
    requires whole { AreFilled (M.keeps matroid.now) M.members (M.count matroid.now) k (part (own_of owner.old)) whole.old }
    requires met { AreKept (M.keeps matroid.now) k met.old.parts }
    requires trial { M.keeps matroid.now met.old.trial }
    requires reached { length search.old.reached ≡ M.count matroid.now }
    requires dead { AreDead (M.count matroid.now) (M.free matroid.now) k (own_of owner.old) search.old.dead }
    ensures packing { OnOk result (IsPacking (M.count matroid.now) (M.free matroid.now) k (own_of owner.new)) }
    ensures dead { OnOk result (AreDead (M.count matroid.now) (M.free matroid.now) k (own_of owner.new) search.new.dead) }
    ensures rest { OnOk result ((e : ℕ) → e < M.count matroid.now → own_of owner.new e ≡ None → has search.new.dead e ≡ true) }
{
    'grow: while let Some(element) = next_root(owner, &search.dead) {
        search.restart(element as u32)?;
        fill_sets(
            matroid,
            &mut met.parts,
            owner,
            &search.reached,
            owner.len(),
            k,
        );
        match find_end(matroid, whole, met, owner, search, k)? {
            Some(end) => {
                exchange(matroid, owner, search, end, k);
                fill_sets(matroid, whole, owner, &search.reached, 0, k);
            }
            None => search.settle(),
        }
    }
    Ok(())
}

/// The first element that no part has and that isn't dead.
fn next_root(owner: &[Option<u32>], dead: &Marks) -> Option<usize>
    requires { length owner.now ≡ length dead.now }
    ensures below { IfSome result (λ e. e < length owner.now) }
    ensures spare { IfSome result (λ e. own_of owner.now e ≡ None) }
    ensures alive { IfSome result (λ e. has dead.now e ≡ false) }
    ensures none { result ≡ None → (e : ℕ) → e < length owner.now → own_of owner.now e ≡ None → has dead.now e ≡ true }
{
    for i in 0..owner.len() {
        if owner[i].is_none() && !*dead.item(i) {
            return Some(i);
        }
    }
    None
}

/// No part has an element.
fn no_owners(alloc: Global, n: usize) -> Result<Vec<Option<u32>>, NoMemory>
    ensures { IfOk result (λ v. v.items ≡ replicate n None) }
{
    let mut owner = Vec::new(alloc);
    for _ in 0..n {
        if owner.push(None).is_err() {
            return Err(NoMemory);
        }
    }
    Ok(owner)
}

/// The elements of each part.
fn all_rows(alloc: Global, owner: &[Option<u32>], k: u32) -> Result<NumberRows, NoMemory>
    requires few { length owner.now < 2 ^ 32 }
    requires below { (i p : ℕ) → own_of owner.now i ≡ Some p → p < k }
    ensures { IfOk result (λ rows. rows ≡ rows_of (length owner.now) (own_of owner.now) k) }
{
    let mut rows = empty_rows(alloc, k)?;
    for i in 0..owner.len() {
        if let Some(number) = owner[i] {
            rows.item_mut(number as usize).push(i as u32)?;
        }
    }
    Ok(rows)
}

fn empty_rows(alloc: Global, k: u32) -> Result<NumberRows, NoMemory>
    ensures { IfOk result (λ rows. rows ≡ replicate k []) }
{
    let mut rows = NumberRows::new(alloc);
    for _ in 0..k {
        rows.push(Numbers::new(alloc))?;
    }
    Ok(rows)
}
