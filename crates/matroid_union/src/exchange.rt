ghost use Rattle.std.specs.Prelude.{◌≡◌, ◌+◌, ℕ, ◌<◌, length, slice_index, true};
ghost use Rattle.graph_core.specs.Side.{has};
ghost use Rattle.matroid_union.specs.Parts.{own_of, spare, IsPacking, End};
ghost use Rattle.matroid_union.specs.Search.{IsSearch};

use crate::ends::PathEnd;
use crate::matroid::Matroid;
use crate::search::Search;

/// Lets each element of the path take the place of the next, and the last one join the part at the end.
pub(crate) fn exchange<M: Matroid>(
    _matroid: &M,
    owner: &mut [Option<u32>],
    search: &Search,
    end: PathEnd,
    k: u32,
)
    requires all { length owner.old ≡ M.count _matroid.now }
    requires packing { IsPacking (M.count _matroid.now) (M.free _matroid.now) k (own_of owner.old) }
    requires search { IsSearch (M.count _matroid.now) (M.free _matroid.now) k (own_of owner.old) search.now.dead search.now.reached search.now.queue.items search.now.back.items 0 }
    requires place { end.at < length search.now.queue.items }
    requires end { End (M.count _matroid.now) (M.free _matroid.now) k (own_of owner.old) (slice_index search.now.queue.items) end.at end.number }
    ensures packing { IsPacking (M.count _matroid.now) (M.free _matroid.now) k (own_of owner.new) }
    ensures dead { (e : ℕ) → has search.now.dead e ≡ true → own_of owner.new e ≡ own_of owner.old e }
    ensures fewer { spare owner.new + 1 ≡ spare owner.old }
{
    let mut at = end.at;
    let mut number = end.number;
    'path: loop {
        let element = search.queue[at] as usize;
        let before = owner[element];
        owner[element] = Some(number);
        match before {
            None => return,
            Some(next) => {
                number = next;
                at = search.back[at];
            }
        }
    }
}
