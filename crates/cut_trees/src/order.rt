ghost use Rattle.std.specs.Prelude.{◌≡◌, ◌<◌, ◌≤◌, ℕ, length, true, All, slice_set, IfSome, IfNone};
ghost use Rattle.graph_core.specs.Graph.{GraphValue, Fits};
ghost use Rattle.graph_core.specs.Lines.{differ};
ghost use Rattle.graph_core.specs.Side.{has};
ghost use Rattle.problem_defs.specs.CutTree.{IsCutTree};
ghost use Rattle.graph_core.specs.Pairs.{pair_at, AreIn};
ghost use Rattle.cut_trees.specs.Order.{outward, IsSearched};

use graph_core::Side;

/// Two nodes and the value of a least cut between them.
pub type Pair = (u32, u32, u64);

/// The place of the first pair from `i` on that crosses the side.
fn next_across(pairs: &[Pair], i: usize, side: &Side) -> Option<usize>
    requires { AreIn (length side.now) pairs.now }
    ensures found { IfSome result (λ k. (i ≤ k) × (k < length pairs.now) × (differ (has side.now (pair_at pairs.now k).0) (has side.now (pair_at pairs.now k).1) ≡ true)) }
    ensures none { IfNone result ((k : ℕ) → i ≤ k → k < length pairs.now → has side.now (pair_at pairs.now k).0 ≡ has side.now (pair_at pairs.now k).1) }
{
    for k in i..pairs.len() {
        if side.has(pairs[k].0) != side.has(pairs[k].1) {
            return Some(k);
        }
    }
    None
}

/// The pair, turned to lead out of the side.
fn led_out(pair: Pair, side: &Side) -> Pair
    requires { pair.0 < length side.now }
    ensures { result ≡ outward (has side.now pair.0) pair }
{
    let (first, second, weight) = pair;
    if side.has(first) {
        pair
    } else {
        (second, first, weight)
    }
}

/// Brings the pair at place `k` to place `i`, turned to lead out of the side, and adds the node that
/// it leads to.
fn take_next(pairs: &mut [Pair], i: usize, k: usize, side: &mut Side)
    requires nodes { AreIn (length side.old) pairs.old }
    requires i { i < length pairs.old }
    requires k { k < length pairs.old }
    ensures pairs { pairs.new ≡ slice_set (slice_set pairs.old k (pair_at pairs.old i)) i (outward (has side.old (pair_at pairs.old k).0) (pair_at pairs.old k)) }
    ensures side { side.new ≡ slice_set side.old (outward (has side.old (pair_at pairs.old k).0) (pair_at pairs.old k)).1 true }
{
    let pair = led_out(pairs[k], side);
    pairs[k] = pairs[i];
    pairs[i] = pair;
    side.put(pair.1, true);
}

/// Searches a tree from `u`: its pairs come into an order in which each, turned about where it has
/// to be, leads from `u` or from where an earlier one leads to a new node.
pub fn search_from(pairs: &mut [Pair], u: u32, reached: &mut Side)
    requires nodes { AreIn (length reached.old) pairs.old }
    requires u { u < length reached.old }
    ensures long { length reached.new ≡ length reached.old }
    ensures nodes { AreIn (length reached.new) pairs.new }
    ensures searched { (g : GraphValue) → All (Fits (length g.names)) g.lines → length reached.old ≡ length g.names → IsCutTree g pairs.old → IsSearched g pairs.old u pairs.new (length pairs.new) reached.new }
{
    reached.hold_only(u);
    for i in 0..pairs.len() {
        let Some(k) = next_across(pairs, i, reached) else {
            return;
        };
        take_next(pairs, i, k, reached);
    }
}
