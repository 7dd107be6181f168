ghost use Rattle.std.specs.Prelude.{◌≡◌, ◌^◌, ℕ, ◌<◌, ◌≤◌, length, IfSome, Some, None, true, slice_get, slice_set};
ghost use Rattle.matroid_union.specs.Growing.{AreKept, AreFilled};
ghost use Rattle.matroid_union.specs.Parts.{own_of, part, IsPacking};

use crate::matroid::Matroid;
use graph_core::Items;

/// A part that can take the element beside what it has, tried from part `first` on.
fn part_for<M: Matroid>(
    matroid: &M,
    whole: &Items<M::Set>,
    element: u32,
    first: u32,
    k: u32,
) -> Option<u32>
    requires kept { AreKept (M.keeps matroid.now) k whole.now }
    requires below { element < M.count matroid.now }
    requires first { first ≤ k }
    ensures below { IfSome result (λ p. p < k) }
    ensures joins { IfSome result (λ p. (set : M.Set) → slice_get whole.now p ≡ Some set → M.free matroid.now (slice_set (M.members set) element true)) }
{
    for turn in 0..k {
        let number = if turn < k - first {
            first + turn
        } else {
            turn - (k - first)
        };
        if matroid.takes(whole.item(number as usize), element) {
            return Some(number);
        }
    }
    None
}

/// Lets each element in turn join a part that can simply take it. The parts are tried from the one
/// after the last that took one, so that parallel elements are taken at the first try.
pub(crate) fn take_freely<M: Matroid>(
    matroid: &M,
    whole: &mut Items<M::Set>,
    owner: &mut [Option<u32>],
    k: u32,
)
    requires all { length owner.old ≡ M.count matroid.now }
    requires few { M.count matroid.now < 2 ^ 32 }
    requires none { (e : ℕ) → own_of owner.old e ≡ None }
    requires whole { AreFilled (M.keeps matroid.now) M.members (M.count matroid.now) k (part (own_of owner.old)) whole.old }
    ensures packing { IsPacking (M.count matroid.now) (M.free matroid.now) k (own_of owner.new) }
    ensures whole { AreFilled (M.keeps matroid.now) M.members (M.count matroid.now) k (part (own_of owner.new)) whole.new }
{
    let mut first: u32 = 0;
    for i in 0..owner.len() {
        let found = part_for(matroid, whole, i as u32, first, k);
        if let Some(number) = found {
            matroid.add(whole.item_mut(number as usize), i as u32);
            owner[i] = found;
            first = number + 1;
        }
    }
}
