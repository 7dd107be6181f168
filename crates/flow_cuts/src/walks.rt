ghost use Rattle.std.specs.Prelude.{◌≡◌, ℕ, ◌+◌, ◌<◌, ◌≤◌, List, Bool, true, length, IfOk, OnOk};
ghost use Rattle.flow_cuts.specs.declared.network.Link.{Link as LinkOf};
ghost use Rattle.flow_cuts.specs.declared.network.Step.{Step as StepOf};
ghost use Rattle.flow_cuts.specs.Residual.{SameEnds, from_at};
ghost use Rattle.graph_core.specs.Side.{has, IsOnly};
ghost use Rattle.graph_core.specs.Picked.{occurrences};
ghost use Rattle.flow_cuts.specs.Search.{mark_at, IsOpenWay, IsAdjacency};
ghost use Rattle.flow_cuts.specs.Streams.{IsStream, IsLess, IsSent, both_at};
ghost use Rattle.flow_cuts.specs.LinkWalks.{IsLinkWalk, AreLinkWalks};

use crate::course::Course;
use crate::network::{Link, step_from, take_step};
use crate::search::{Mark, Tree, reached_in, search};
use graph_core::{NoMemory, NumberRows, Numbers, Side};
use std::alloc::Global;

/// What was sent along each link: what the link keeps from its whole.
pub fn sent_links(alloc: Global, whole: &[Link], links: &[Link]) -> Result<Vec<Link>, NoMemory>
    requires { length links.now ≡ length whole.now }
    ensures { IfOk result (λ sent. IsSent whole.now links.now sent.items) }
{
    let mut sent = Vec::with_capacity(alloc, whole.len())?;
    for j in 0..whole.len() {
        let link = whole[j];
        sent.push(Link {
            forth: link.forth.saturating_sub(links[j].forth),
            back: link.back.saturating_sub(links[j].back),
            ..link
        })?;
    }
    Ok(sent)
}

/// Takes a walk out of what is sent, from the inside to a node, along the steps by which the node was reached.
pub fn take_walk(
    alloc: Global,
    inside: &Side,
    marks: &[Mark],
    end: u32,
    sent: &mut [Link],
) -> Result<Numbers, NoMemory>
    requires marks { length marks.now ≡ length inside.now }
    requires end { end < length inside.now }
    requires way { IsOpenWay sent.old inside.now marks.now 1 (mark_at marks.now end).level end }
    requires from { (step : StepOf) → step.link < length sent.old → from_at sent.old step < length inside.now }
    ensures ends { SameEnds sent.old sent.new }
    ensures less { IsLess sent.old sent.new }
    ensures stream { OnOk result ((outside : List Bool) (r : ℕ) → has outside end ≡ true → IsStream (length inside.now) inside.now outside sent.old (r + 1) → IsStream (length inside.now) inside.now outside sent.new r) }
    ensures once { IfOk result (λ walk. (j : ℕ) → occurrences j walk + both_at sent.new j ≡ both_at sent.old j) }
    ensures walk { IfOk result (λ walk. (s : ℕ) × (has inside.now s ≡ true) × IsLinkWalk sent.old s end walk) }
{
    let mut walk = Vec::new(alloc);
    let mut v = end;
    while !inside.has(v) {
        let step = marks[v as usize].via;
        walk.push(step.link)?;
        take_step(sent, step);
        v = step_from(sent, step);
    }
    walk.reverse();
    Ok(Numbers::from_vec(walk))
}

/// Splits what is sent into walks from the inside to the outside, by one search for each walk.
pub fn split_walks(
    alloc: Global,
    course: &Course,
    count: u64,
    sent: &mut [Link],
) -> Result<NumberRows, NoMemory>
    requires outside { length course.now.outside ≡ length course.now.inside }
    requires network { IsAdjacency (length course.now.inside) sent.old course.now.steps }
    requires stream { IsStream (length course.now.inside) course.now.inside course.now.outside sent.old count }
    requires units { (j : ℕ) → both_at sent.old j ≤ 1 }
    ensures { IfOk result (λ walks. (whole : List LinkOf) (s t : ℕ) → SameEnds whole sent.old → IsLess whole sent.old → IsOnly course.now.inside s → IsOnly course.now.outside t → AreLinkWalks whole s t count walks) }
{
    let mut tree = Tree::new(alloc, course.inside.len())?;
    let mut walks = NumberRows::new(alloc);
    for _ in 0..count {
        search(sent, &course.steps, &course.inside, &mut tree);
        let Some(end) = reached_in(&course.outside, &tree.marks) else {
            unreachable!("more is sent than was split off");
        };
        let walk = take_walk(alloc, &course.inside, &tree.marks, end, sent)?;
        walks.push(walk)?;
    }
    Ok(walks)
}
