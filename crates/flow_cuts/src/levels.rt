ghost use Rattle.std.specs.Prelude.{◌≡◌, ℕ, ◌+◌, ◌<◌, ◌≤◌, List, Bool, true, length, IfSome, IfNone};
ghost use Rattle.flow_cuts.specs.declared.network.Step.{Step as StepOf};
ghost use Rattle.flow_cuts.specs.declared.network.Cap.{Cap as CapOf};
ghost use Rattle.graph_core.specs.Limits.{side_room};
ghost use Rattle.graph_core.specs.Side.{has};
ghost use Rattle.flow_cuts.specs.Residual.{EachFits, SameEnds, SameSums, from_at, IsFlow};
ghost use Rattle.flow_cuts.specs.Search.{mark_at, IsOpenWay, IsNarrowWay, IsAdjacency, IsLevelled, IsLedTo, IsSearched, IsMissed};

use crate::adjacency::Adjacency;
use crate::course::Course;
use crate::network::{Link, push_step, step_from, step_room, step_to};
use crate::search::{Mark, Tree, UNSEEN, reached_in, search};
use graph_core::Side;

/// Sends an amount from the inside to a node, along the steps by which the node was reached.
fn push_way(inside: &Side, marks: &[Mark], end: u32, amount: u32, links: &mut [Link])
    requires marks { length marks.now ≡ length inside.now }
    requires end { end < length inside.now }
    requires way { IsOpenWay links.old inside.now marks.now amount (mark_at marks.now end).level end }
    requires from { (step : StepOf) → step.link < length links.old → from_at links.old step < length inside.now }
    requires fits { EachFits links.old }
    ensures fits { EachFits links.new }
    ensures ends { SameEnds links.old links.new }
    ensures sums { SameSums links.old links.new }
    ensures sent { (outside : List Bool) (arcs : List CapOf) (value : ℕ) → has outside end ≡ true → IsFlow (length inside.now) inside.now outside arcs links.old value → IsFlow (length inside.now) inside.now outside arcs links.new (value + amount) }
{
    let mut v = end;
    while !inside.has(v) {
        let step = marks[v as usize].via;
        push_step(links, step, amount);
        v = step_from(links, step);
    }
}

/// Leads on from a node to one of the next level, by the first step that still does.
fn lead_on(
    links: &[Link],
    steps: &Adjacency,
    v: u32,
    marks: &mut [Mark],
    next: &mut [usize],
) -> Option<u32>
    requires network { IsAdjacency (length marks.old) links.now steps.now }
    requires next { length next.old ≡ length marks.old }
    requires node { v < length marks.old }
    requires low { (mark_at marks.old v).level < side_room }
    ensures next { length next.new ≡ length marks.old }
    ensures none { IfNone result (marks.new ≡ marks.old) }
    ensures node { IfSome result (λ w. w < length marks.old) }
    ensures led { IfSome result (λ w. IsLedTo marks.old marks.new w) }
    ensures level { IfSome result (λ w. (mark_at marks.new w).level ≡ (mark_at marks.old v).level + 1) }
    ensures way { IfSome result (λ w. (inside : List Bool) → IsNarrowWay links.now inside marks.old (mark_at marks.old v).level v → IsNarrowWay links.now inside marks.new ((mark_at marks.old v).level + 1) w) }
{
    let row = steps.row(v);
    let from = marks[v as usize];
    while next[v as usize] < row.len() {
        let step = row[next[v as usize]];
        let to = step_to(links, step);
        let room = step_room(links, step);
        if room > 0 && marks[to as usize].level == from.level + 1 {
            marks[to as usize] = Mark {
                level: from.level + 1,
                via: step,
                narrow: from.narrow.min(room),
            };
            return Some(to);
        }
        next[v as usize] += 1;
    }
    None
}

/// Sends along ways of growing levels from one node of the inside, until none is left or all of `stop` is sent.
fn drain(
    course: &Course,
    root: u32,
    stop: u64,
    links: &mut [Link],
    marks: &mut [Mark],
    next: &mut [usize],
) -> u64
    requires outside { length course.now.outside ≡ length course.now.inside }
    requires network { IsAdjacency (length course.now.inside) links.old course.now.steps }
    requires fits { EachFits links.old }
    requires next { length next.old ≡ length course.now.inside }
    requires levelled { IsLevelled (length course.now.inside) course.now.inside marks.old }
    requires root { (root < length course.now.inside) × ((mark_at marks.old root).level ≡ 0) }
    ensures fits { EachFits links.new }
    ensures ends { SameEnds links.old links.new }
    ensures sums { SameSums links.old links.new }
    ensures next { length next.new ≡ length course.now.inside }
    ensures levelled { IsLevelled (length course.now.inside) course.now.inside marks.new }
    ensures most { result ≤ stop }
    ensures flow { (arcs : List CapOf) (value : ℕ) → IsFlow (length course.now.inside) course.now.inside course.now.outside arcs links.old value → IsFlow (length course.now.inside) course.now.inside course.now.outside arcs links.new (value + result) }
{
    let mut sent = 0;
    let mut v = root;
    while sent < stop {
        if course.outside.has(v) {
            let amount = stop
                .saturating_sub(sent)
                .min(marks[v as usize].narrow as u64) as u32;
            push_way(&course.inside, marks, v, amount, links);
            sent += amount as u64;
            v = root;
        } else if let Some(to) = lead_on(links, &course.steps, v, marks, next) {
            v = to;
        } else if marks[v as usize].level == 0 {
            return sent;
        } else {
            let from = step_from(links, marks[v as usize].via);
            marks[v as usize].level = UNSEEN;
            v = from;
        }
    }
    sent
}

/// Sends along ways of growing levels from each node of the inside.
fn drain_all(
    course: &Course,
    stop: u64,
    links: &mut [Link],
    marks: &mut [Mark],
    next: &mut [usize],
) -> u64
    requires outside { length course.now.outside ≡ length course.now.inside }
    requires network { IsAdjacency (length course.now.inside) links.old course.now.steps }
    requires fits { EachFits links.old }
    requires next { length next.old ≡ length course.now.inside }
    requires levelled { IsLevelled (length course.now.inside) course.now.inside marks.old }
    ensures fits { EachFits links.new }
    ensures ends { SameEnds links.old links.new }
    ensures sums { SameSums links.old links.new }
    ensures next { length next.new ≡ length course.now.inside }
    ensures marks { length marks.new ≡ length course.now.inside }
    ensures most { result ≤ stop }
    ensures flow { (arcs : List CapOf) (value : ℕ) → IsFlow (length course.now.inside) course.now.inside course.now.outside arcs links.old value → IsFlow (length course.now.inside) course.now.inside course.now.outside arcs links.new (value + result) }
{
    next.fill(0);
    let mut sent = 0;
    for root in 0..course.inside.len() as u32 {
        if marks[root as usize].level == 0 {
            sent += drain(course, root, stop.saturating_sub(sent), links, marks, next);
        }
    }
    sent
}

/// Sends as much as can go from the inside to the outside, but no more than `stop`, along ways of fewest steps (Dinitz). Where it
/// sends less, the tree has in the end all that can still be reached from the inside.
pub fn send_by_levels(
    course: &Course,
    stop: u64,
    links: &mut [Link],
    tree: &mut Tree,
    next: &mut [usize],
) -> u64
    requires outside { length course.now.outside ≡ length course.now.inside }
    requires network { IsAdjacency (length course.now.inside) links.old course.now.steps }
    requires fits { EachFits links.old }
    requires marks { length tree.old.marks.items ≡ length course.now.inside }
    requires queue { length tree.old.queue.items ≡ length course.now.inside }
    requires next { length next.old ≡ length course.now.inside }
    ensures fits { EachFits links.new }
    ensures ends { SameEnds links.old links.new }
    ensures sums { SameSums links.old links.new }
    ensures marks { length tree.new.marks.items ≡ length course.now.inside }
    ensures queue { length tree.new.queue.items ≡ length course.now.inside }
    ensures next { length next.new ≡ length course.now.inside }
    ensures most { result ≤ stop }
    ensures flow { (arcs : List CapOf) (value : ℕ) → IsFlow (length course.now.inside) course.now.inside course.now.outside arcs links.old value → IsFlow (length course.now.inside) course.now.inside course.now.outside arcs links.new (value + result) }
    ensures searched { result < stop → IsSearched (length course.now.inside) links.new course.now.inside tree.new.marks.items }
    ensures missed { result < stop → IsMissed course.now.outside tree.new.marks.items }
{
    let mut sent = 0;
    while sent < stop {
        search(links, &course.steps, &course.inside, tree);
        let Some(end) = reached_in(&course.outside, &tree.marks) else {
            return sent;
        };
        let amount = stop
            .saturating_sub(sent)
            .min(tree.marks[end as usize].narrow as u64) as u32;
        push_way(&course.inside, &tree.marks, end, amount, links);
        sent += amount as u64;
        let more = drain_all(
            course,
            stop.saturating_sub(sent),
            links,
            &mut tree.marks,
            next,
        );
        sent += more;
    }
    sent
}
