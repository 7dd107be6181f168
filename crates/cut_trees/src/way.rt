ghost use Rattle.std.specs.Prelude.{◌≡◌, ◌≢◌, ◌<◌, ℕ, length};
ghost use Rattle.graph_core.specs.Pairs.{AreIn};
ghost use Rattle.cut_trees.specs.Order.{IsOrdered, IsReached};
ghost use Rattle.cut_trees.specs.Way.{IsCutAt, IsLeastOnWay};

use crate::order::Pair;
use graph_core::Side;

/// The place of the least pair on the way to `v`, which is followed backwards.
pub fn least_on_way(pairs: &[Pair], v: u32) -> usize
    ensures { (u : ℕ) → u ≢ v → IsOrdered u pairs.now (length pairs.now) → IsReached u pairs.now (length pairs.now) v → IsLeastOnWay pairs.now u v result }
{
    let mut at = v;
    let mut least = pairs.len();
    let mut i = pairs.len();
    while i > 0 {
        i -= 1;
        if pairs[i].1 == at {
            at = pairs[i].0;
            if least == pairs.len() || pairs[i].2 < pairs[least].2 {
                least = i;
            }
        }
    }
    least
}

/// Makes the side what lies before pair `j`: all nodes but the one that it leads to and those to
/// which the way leads from there.
pub fn part_at(pairs: &[Pair], j: usize, side: &mut Side)
    requires nodes { AreIn (length side.old) pairs.now }
    requires j { j < length pairs.now }
    ensures long { length side.new ≡ length side.old }
    ensures cut { (u : ℕ) → IsOrdered u pairs.now (length pairs.now) → IsCutAt pairs.now j (length pairs.now) side.new }
{
    side.hold_only(pairs[j].1);
    side.complement();
    for k in j + 1..pairs.len() {
        side.put(pairs[k].1, side.has(pairs[k].0));
    }
}
