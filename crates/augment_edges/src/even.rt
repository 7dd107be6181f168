ghost use Rattle.std.specs.Prelude.{◌≡◌, ◌<◌, ◌≤◌, length, sum, slice_index};
ghost use Rattle.graph_core.specs.Limits.{line_room};
ghost use Rattle.augment_edges.specs.Even.{IsMadeEven};

use cut_fn::{Star, total_count};
use graph_core::Counts;

/// The first node with a count.
fn counted(counts: &Counts) -> usize
    requires { 1 ≤ sum counts.now }
    ensures below { result < length counts.now }
    ensures some { 1 ≤ slice_index counts.now result }
{
    for (v, count) in counts.as_slice().iter().enumerate() {
        if *count > 0 {
            return v;
        }
    }
    unreachable!("a node has a count")
}

/// Raises the count of a node with a count by one, where the sum is odd.
fn make_even(counts: &mut Counts)
    requires { sum counts.old < line_room }
    ensures { IsMadeEven counts.old counts.new }
{
    if total_count(counts.as_slice()) % 2 == 1 {
        let v = counted(counts);
        *counts.item_mut(v) += 1;
    }
}

/// The star with one edge more, at a node that has one, where the number of its edges is odd.
pub fn even_star(star: Star) -> Star
    requires { sum star.count < line_room }
    ensures graph { result.graph ≡ star.graph }
    ensures counts { IsMadeEven star.count result.count }
{
    let Star { graph, mut count } = star;
    make_even(&mut count);
    Star { graph, count }
}
