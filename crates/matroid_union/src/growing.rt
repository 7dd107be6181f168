ghost use Rattle.std.specs.Prelude.{◌≡◌, ◌^◌, ◌<◌, length, IfOk, false};
ghost use Rattle.graph_core.specs.Sets.{set_of};
ghost use Rattle.matroid_union.specs.Parts.{own_of, part, kept, IsPacking};
ghost use Rattle.matroid_union.specs.Growing.{IsFilled, AreKept, AreFilled};

use crate::matroid::Matroid;
use crate::packing::is_kept;
use graph_core::{Items, Marks, NoMemory};
use std::alloc::Global;

/// What is reached of each part, as sets that grow, and one more to try exchanges with.
#[derive(Drop)]
pub(crate) struct ReachedSets<S> {
    pub(crate) parts: Items<S>,
    pub(crate) trial: S,
}

/// Makes the set the elements of the part from place `from` on, and the reached ones before.
pub(crate) fn fill_set<M: Matroid>(
    matroid: &M,
    set: &mut M::Set,
    owner: &[Option<u32>],
    reached: &Marks,
    number: u32,
    from: usize,
)
    requires all { length owner.now ≡ M.count matroid.now }
    requires few { M.count matroid.now < 2 ^ 32 }
    requires marks { length reached.now ≡ M.count matroid.now }
    requires kept { M.keeps matroid.now set.old }
    requires whole { M.free matroid.now (set_of (M.count matroid.now) (part (own_of owner.now) number)) }
    ensures { IsFilled (M.keeps matroid.now) M.members (M.count matroid.now) (kept (own_of owner.now) reached.now number from) set.new }
{
    matroid.clear(set);
    for i in 0..owner.len() {
        if is_kept(owner, reached, number, from, i) {
            matroid.add(set, i as u32);
        }
    }
}

/// Makes each set the elements of its part from place `from` on, and the reached ones before.
pub(crate) fn fill_sets<M: Matroid>(
    matroid: &M,
    sets: &mut Items<M::Set>,
    owner: &[Option<u32>],
    reached: &Marks,
    from: usize,
    k: u32,
)
    requires all { length owner.now ≡ M.count matroid.now }
    requires few { M.count matroid.now < 2 ^ 32 }
    requires marks { length reached.now ≡ M.count matroid.now }
    requires kept { AreKept (M.keeps matroid.now) k sets.old }
    requires packing { IsPacking (M.count matroid.now) (M.free matroid.now) k (own_of owner.now) }
    ensures { AreFilled (M.keeps matroid.now) M.members (M.count matroid.now) k (λ p. kept (own_of owner.now) reached.now p from) sets.new }
{
    clear_sets(matroid, sets, k);
    for i in 0..owner.len() {
        if let Some(number) = owner[i] {
            if is_kept(owner, reached, number, from, i) {
                matroid.add(sets.item_mut(number as usize), i as u32);
            }
        }
    }
}

/// Takes all elements out of each set.
fn clear_sets<M: Matroid>(matroid: &M, sets: &mut Items<M::Set>, k: u32)
    requires { AreKept (M.keeps matroid.now) k sets.old }
    ensures { AreFilled (M.keeps matroid.now) M.members (M.count matroid.now) k (λ p i. false) sets.new }
{
    for number in 0..k {
        matroid.clear(sets.item_mut(number as usize));
    }
}

/// Sets with no element, one for each part.
pub(crate) fn no_sets<M: Matroid>(
    alloc: Global,
    matroid: &M,
    k: u32,
) -> Result<Items<M::Set>, NoMemory>
    ensures { IfOk result (AreFilled (M.keeps matroid.now) M.members (M.count matroid.now) k (λ p i. false)) }
{
    let mut sets = Items::new(alloc);
    for _ in 0..k {
        sets.push(matroid.no_elements(alloc)?)?;
    }
    Ok(sets)
}

/// Nothing is reached.
pub(crate) fn none_reached<M: Matroid>(
    alloc: Global,
    matroid: &M,
    k: u32,
) -> Result<ReachedSets<M::Set>, NoMemory>
    ensures parts { IfOk result (λ met. AreKept (M.keeps matroid.now) k met.parts) }
    ensures trial { IfOk result (λ met. M.keeps matroid.now met.trial) }
{
    let parts = no_sets(alloc, matroid, k)?;
    let trial = matroid.no_elements(alloc)?;
    Ok(ReachedSets { parts, trial })
}
