ghost use Rattle.std.specs.Prelude.{◌≡◌, ℕ, ◌+◌, ◌<◌, ◌≤◌, ◌++◌, true, false, All, length};
ghost use Rattle.std.specs.Bool.{OnTrue, OnFalse};
ghost use Rattle.graph_core.specs.Side.{has, size};
ghost use Rattle.graph_core.specs.Pairs.{AreIn};
ghost use Rattle.certificate_checker.specs.TreeSides.{AddsOther, AreUncrossed, IsGrown, IsReach};

use graph_core::Side;

/// Adds the other node of a pair that crosses the side.
fn add_other(side: &mut Side, u: u32, v: u32) -> bool
    requires u { u < length side.old }
    requires v { v < length side.old }
    ensures across { OnTrue result (AddsOther u v side.old side.new) }
    ensures along { OnFalse result ((side.new ≡ side.old) × (has side.old u ≡ has side.old v)) }
{
    let has_u = side.has(u);
    let has_v = side.has(v);
    if has_u && !has_v {
        side.put(v, true);
        return true;
    }
    if has_v && !has_u {
        side.put(u, true);
        return true;
    }
    false
}

/// Adds the other node of each pair that crosses the side, in one pass. Whether there was such a pair.
fn spread(side: &mut Side, pairs: &[(u32, u32, u64)]) -> bool
    requires nodes { AreIn (length side.old) pairs.now }
    ensures grown { IsGrown pairs.now side.old side.new }
    ensures more { OnTrue result (size side.old < size side.new) }
    ensures done { OnFalse result ((side.new ≡ side.old) × AreUncrossed side.new pairs.now) }
{
    let mut added = false;
    for pair in pairs {
        if add_other(side, pair.0, pair.1) {
            added = true;
        }
    }
    added
}

/// Adds the other node of each pair that crosses the side, in one pass from the last pair to the first: where each
/// pair's first node is the second of an earlier pair, the side then has the whole way to the first pair.
fn spread_back(side: &mut Side, pairs: &[(u32, u32, u64)])
    requires { AreIn (length side.old) pairs.now }
    ensures { IsGrown pairs.now side.old side.new }
{
    for k in 0..pairs.len() {
        let pair = pairs[pairs.len() - 1 - k];
        add_other(side, pair.0, pair.1);
    }
}

/// Adds what the pairs connect to the side.
fn grow(side: &mut Side, before: &[(u32, u32, u64)], behind: &[(u32, u32, u64)])
    requires before { AreIn (length side.old) before.now }
    requires behind { AreIn (length side.old) behind.now }
    ensures grown { IsGrown (before.now ++ behind.now) side.old side.new }
    ensures done { AreUncrossed side.new (before.now ++ behind.now) }
{
    spread_back(side, before);
    let mut more = true;
    while more {
        let first = spread(side, before);
        let second = spread(side, behind);
        more = first || second;
    }
}

/// Makes the side what pair `j`'s first node reaches by the other pairs.
pub fn reach(side: &mut Side, pairs: &[(u32, u32, u64)], j: usize)
    requires nodes { AreIn (length side.old) pairs.now }
    requires j { j < length pairs.now }
    ensures { IsReach (length side.old) pairs.now j side.new }
{
    side.hold_only(pairs[j].0);
    grow(side, &pairs[..j], &pairs[j + 1..]);
}
