ghost use Rattle.std.specs.Prelude.{◌≡◌, ◌^◌, ◌<◌, length, true, false};
ghost use Rattle.graph_core.specs.Side.{has};
ghost use Rattle.matroid_union.specs.Sets.{plus, swap};
ghost use Rattle.graph_core.specs.Sets.{set_of};
ghost use Rattle.matroid_union.specs.Parts.{own_of, part, kept, holds};

use crate::growing::fill_set;
use crate::matroid::Matroid;
use graph_core::Marks;

/// Whether it is this part.
pub(crate) fn is_part(owner: Option<u32>, number: u32) -> bool
    ensures { result ≡ holds owner number }
{
    match owner {
        Some(p) => p == number,
        None => false,
    }
}

/// Whether element `i` is in the part, and stands from place `from` on or is reached.
pub(crate) fn is_kept(
    owner: &[Option<u32>],
    reached: &Marks,
    number: u32,
    from: usize,
    i: usize,
) -> bool
    requires below { i < length owner.now }
    requires marks { length reached.now ≡ length owner.now }
    ensures { result ≡ kept (own_of owner.now) reached.now number from i }
{
    is_part(owner[i], number) && (from <= i || *reached.item(i))
}

/// An element of the part that isn't reached and whose place `extra` can take: the reached ones of
/// the part can take `extra`, and it is the one at which they no longer can, as those of the part
/// join them from the last on.
pub(crate) fn find_place<M: Matroid>(
    matroid: &M,
    trial: &mut M::Set,
    owner: &[Option<u32>],
    reached: &Marks,
    number: u32,
    extra: u32,
) -> usize
    requires all { length owner.now ≡ M.count matroid.now }
    requires few { M.count matroid.now < 2 ^ 32 }
    requires marks { length reached.now ≡ M.count matroid.now }
    requires kept { M.keeps matroid.now trial.old }
    requires below { extra < M.count matroid.now }
    requires apart { part (own_of owner.now) number extra ≡ false }
    requires whole { M.free matroid.now (set_of (M.count matroid.now) (part (own_of owner.now) number)) }
    requires full { M.free matroid.now (set_of (M.count matroid.now) (plus (part (own_of owner.now) number) extra)) → ⊥ }
    requires room { M.free matroid.now (set_of (M.count matroid.now) (plus (kept (own_of owner.now) reached.now number (M.count matroid.now)) extra)) }
    ensures below { result < M.count matroid.now }
    ensures held { part (own_of owner.now) number result ≡ true }
    ensures fresh { has reached.now result ≡ false }
    ensures swaps { M.free matroid.now (set_of (M.count matroid.now) (swap (part (own_of owner.now) number) result extra)) }
    ensures kept { M.keeps matroid.now trial.new }
{
    fill_set(matroid, trial, owner, reached, number, owner.len());
    let mut from = owner.len();
    'down: loop {
        from -= 1;
        if is_part(owner[from], number) && !*reached.item(from) {
            matroid.add(trial, from as u32);
            if !matroid.takes(trial, extra) {
                return from;
            }
        }
    }
}
