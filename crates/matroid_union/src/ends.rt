ghost use Rattle.std.specs.Prelude.{◌≡◌, ℕ, ◌<◌, length, IsTrue, IfSome, None, false, slice_index};
ghost use Rattle.matroid_union.specs.Sets.{plus};
ghost use Rattle.graph_core.specs.Sets.{set_of};
ghost use Rattle.matroid_union.specs.Growing.{AreFilled};
ghost use Rattle.matroid_union.specs.Parts.{own_of, part, End};
ghost use Rattle.matroid_union.specs.Search.{IsShut};

use crate::matroid::Matroid;
use crate::packing::is_part;
use graph_core::Items;

/// Where a search ended: the part `number` can take the element at place `at`.
#[derive(Clone, Copy)]
pub(crate) struct PathEnd {
    pub(crate) at: usize,
    pub(crate) number: u32,
}

/// Whether the part hasn't the element and can take it beside all that it has.
fn can_join<M: Matroid>(
    matroid: &M,
    whole: &Items<M::Set>,
    owner: &[Option<u32>],
    number: u32,
    element: u32,
    k: u32,
) -> bool
    requires all { length owner.now ≡ M.count matroid.now }
    requires whole { AreFilled (M.keeps matroid.now) M.members (M.count matroid.now) k (part (own_of owner.now)) whole.now }
    requires number { number < k }
    requires below { element < M.count matroid.now }
    ensures apart { IsTrue result → part (own_of owner.now) number element ≡ false }
    ensures joins { IsTrue result → M.free matroid.now (set_of (M.count matroid.now) (plus (part (own_of owner.now) number) element)) }
    ensures shut { result ≡ false → part (own_of owner.now) number element ≡ false → M.free matroid.now (set_of (M.count matroid.now) (plus (part (own_of owner.now) number) element)) → ⊥ }
{
    !is_part(owner[element as usize], number) && matroid.takes(whole.item(number as usize), element)
}

/// A part that hasn't the element and can take it beside all that it has.
fn other_part_for<M: Matroid>(
    matroid: &M,
    whole: &Items<M::Set>,
    owner: &[Option<u32>],
    element: u32,
    k: u32,
) -> Option<u32>
    requires all { length owner.now ≡ M.count matroid.now }
    requires whole { AreFilled (M.keeps matroid.now) M.members (M.count matroid.now) k (part (own_of owner.now)) whole.now }
    requires below { element < M.count matroid.now }
    ensures below { IfSome result (λ p. p < k) }
    ensures apart { IfSome result (λ p. part (own_of owner.now) p element ≡ false) }
    ensures joins { IfSome result (λ p. M.free matroid.now (set_of (M.count matroid.now) (plus (part (own_of owner.now) p) element))) }
    ensures shut { result ≡ None → IsShut (M.count matroid.now) (M.free matroid.now) k (own_of owner.now) element }
{
    for number in 0..k {
        if can_join(matroid, whole, owner, number, element, k) {
            return Some(number);
        }
    }
    None
}

/// The first element of the queue that a part can take, where none before place `tested` is one.
pub(crate) fn first_end<M: Matroid>(
    matroid: &M,
    whole: &Items<M::Set>,
    owner: &[Option<u32>],
    queue: &[u32],
    tested: usize,
    k: u32,
) -> Option<PathEnd>
    requires all { length owner.now ≡ M.count matroid.now }
    requires whole { AreFilled (M.keeps matroid.now) M.members (M.count matroid.now) k (part (own_of owner.now)) whole.now }
    requires below { (i : ℕ) → i < length queue.now → slice_index queue.now i < M.count matroid.now }
    requires shut { (i : ℕ) → i < tested → IsShut (M.count matroid.now) (M.free matroid.now) k (own_of owner.now) (slice_index queue.now i) }
    ensures place { IfSome result (λ end. end.at < length queue.now) }
    ensures end { IfSome result (λ end. End (M.count matroid.now) (M.free matroid.now) k (own_of owner.now) (slice_index queue.now) end.at end.number) }
    ensures shut { result ≡ None → (i : ℕ) → i < length queue.now → IsShut (M.count matroid.now) (M.free matroid.now) k (own_of owner.now) (slice_index queue.now i) }
{
    for at in tested..queue.len() {
        if let Some(number) = other_part_for(matroid, whole, owner, queue[at], k) {
            return Some(PathEnd { at, number });
        }
    }
    None
}
