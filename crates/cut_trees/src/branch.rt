ghost use Rattle.std.specs.Prelude.{◌≡◌, ◌<◌, ◌≤◌, length, ℕ, All, cond, ◌&&◌, ◌==◌, slice_index};
ghost use Rattle.graph_core.specs.Limits.{side_room};
ghost use Rattle.graph_core.specs.Side.{has};
ghost use Rattle.cut_trees.specs.Branch.{at, turn, lead};

use graph_core::Side;

/// A pair of the tree, with a least cut that no other pair crosses: it holds the first node and
/// misses the second.
#[derive(Drop)]
pub struct Branch {
    pub first: u32,
    pub second: u32,
    pub weight: u64,
    pub side: Side,
}

/// Turns the branches about whose first node is `t`.
pub fn turn_branches(branches: &mut [Branch], t: u32)
    ensures { (k : ℕ) → k < length branches.old → at branches.new k ≡ turn t (at branches.old k) }
{
    for branch in branches.iter_mut() {
        if branch.first == t {
            branch.first = branch.second;
            branch.second = t;
            branch.side.complement();
        }
    }
}

/// Leads the branches from `t` to `s` whose first node is in the side.
pub fn lead_on(branches: &mut [Branch], t: u32, s: u32, side: &Side)
    requires { All (λ b. b.first < length side.now) branches.old }
    ensures { (k : ℕ) → k < length branches.old → at branches.new k ≡ lead t s side.now (at branches.old k) }
{
    for branch in branches.iter_mut() {
        if branch.second == t && side.has(branch.first) {
            branch.second = s;
        }
    }
}

/// The nodes of the side that `t` represents are represented by `s` from now on.
pub fn represent(reps: &mut [u32], t: u32, s: u32, side: &Side)
    requires long { length side.now ≡ length reps.old }
    requires few { length reps.old ≤ side_room }
    ensures { (x : ℕ) → x < length reps.old → slice_index reps.new x ≡ cond (slice_index reps.old x == t && has side.now x) s (slice_index reps.old x) }
{
    for x in 0..reps.len() {
        if reps[x] == t && side.has(x as u32) {
            reps[x] = s;
        }
    }
}
