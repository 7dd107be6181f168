ghost use Rattle.std.specs.Prelude.{◌≡◌, ℕ, ◌+◌, ◌<◌, ◌≤◌, List, Bool, true, length, slice_set, IfSome, IfNone, IfOk};
ghost use Rattle.flow_cuts.specs.Residual.{from_at, to_at, room_at};
ghost use Rattle.graph_core.specs.Limits.{side_room};
ghost use Rattle.graph_core.specs.Side.{has};
ghost use Rattle.flow_cuts.specs.declared.network.Link.{Link as LinkOf};
ghost use Rattle.flow_cuts.specs.Search.{unseen, mark_at, IsFilled, IsSearchForest, IsAdjacency, Grows, IsLookedAt, IsRow, IsSearched, IsMissed};

use crate::adjacency::Adjacency;
use crate::network::{Link, Step, Way, step_from, step_room, step_to};
use graph_core::Side;
use std::alloc::{AllocError, Global};

/// The level of a node that is not reached.
pub const UNSEEN: u32 = u32::MAX;

/// How a search came to a node: by how many steps, by which last one, and how much goes through them all.
#[derive(Clone, Copy)]
pub struct Mark {
    pub level: u32,
    pub via: Step,
    pub narrow: u32,
}

/// What a search has reached, by node and in the order in which it came there.
#[derive(Drop)]
pub struct Tree {
    pub marks: Vec<Mark>,
    pub queue: Vec<u32>,
    pub count: usize,
}

impl Tree {
    pub fn new(alloc: Global, n: usize) -> Result<Tree, AllocError>
        ensures marks { IfOk result (λ tree. length tree.marks.items ≡ n) }
        ensures queue { IfOk result (λ tree. length tree.queue.items ≡ n) }
    {
        let none = Mark {
            level: UNSEEN,
            via: Step {
                link: 0,
                way: Way::Forth,
            },
            narrow: 0,
        };
        let marks = vec![in alloc; none; n]?;
        let queue = vec![in alloc; 0; n]?;
        Ok(Tree {
            marks,
            queue,
            count: 0,
        })
    }
}

/// Reaches one node more.
fn add(tree: &mut Tree, v: u32, mark: Mark)
    requires node { v < length tree.old.marks.items }
    requires place { tree.old.count < length tree.old.queue.items }
    ensures marks { tree.new.marks.items ≡ slice_set tree.old.marks.items v mark }
    ensures queue { tree.new.queue.items ≡ slice_set tree.old.queue.items tree.old.count v }
    ensures count { tree.new.count ≡ tree.old.count + 1 }
{
    tree.marks[v as usize] = mark;
    tree.queue[tree.count] = v;
    tree.count += 1;
}

/// Reaches the node that the step leads to, if there is room and it is not reached yet.
fn look(links: &[Link], step: Step, tree: &mut Tree)
    requires link { step.link < length links.now }
    requires to { to_at links.now step < length tree.old.marks.items }
    requires fits { length tree.old.marks.items ≤ side_room }
    requires from { (mark_at tree.old.marks.items (from_at links.now step)).level < unseen }
    requires filled { IsFilled (length tree.old.marks.items) tree.old.marks.items tree.old.queue.items tree.old.count }

    ensures filled { IsFilled (length tree.old.marks.items) tree.new.marks.items tree.new.queue.items tree.new.count }
    ensures grows { Grows tree.old.marks.items tree.old.queue.items tree.old.count tree.new.marks.items tree.new.queue.items tree.new.count }
    ensures forest { (inside : List Bool) → IsSearchForest links.now inside tree.old.marks.items → IsSearchForest links.now inside tree.new.marks.items }
    ensures seen { 0 < room_at links.now step → (mark_at tree.new.marks.items (to_at links.now step)).level < unseen }
{
    let to = step_to(links, step);
    let room = step_room(links, step);
    if room > 0 && tree.marks[to as usize].level == UNSEEN {
        let from = tree.marks[step_from(links, step) as usize];
        let mark = Mark {
            level: from.level + 1,
            via: step,
            narrow: from.narrow.min(room),
        };
        add(tree, to, mark);
    }
}

/// Looks along each step of a row.
fn expand(links: &[Link], row: &[Step], tree: &mut Tree)
    requires fits { length tree.old.marks.items ≤ side_room }
    requires row { IsRow (length tree.old.marks.items) links.now tree.old.marks.items row.now }
    requires filled { IsFilled (length tree.old.marks.items) tree.old.marks.items tree.old.queue.items tree.old.count }
    ensures filled { IsFilled (length tree.old.marks.items) tree.new.marks.items tree.new.queue.items tree.new.count }
    ensures grows { Grows tree.old.marks.items tree.old.queue.items tree.old.count tree.new.marks.items tree.new.queue.items tree.new.count }
    ensures forest { (inside : List Bool) → IsSearchForest links.now inside tree.old.marks.items → IsSearchForest links.now inside tree.new.marks.items }
    ensures looked { IsLookedAt links.now tree.new.marks.items row.now (length row.now) }
{
    for step in row {
        look(links, *step, tree);
    }
}

/// Starts a tree anew, with no node.
fn clear(tree: &mut Tree)
    ensures len { length tree.new.marks.items ≡ length tree.old.marks.items }
    ensures queue { tree.new.queue ≡ tree.old.queue }
    ensures count { tree.new.count ≡ 0 }
    ensures marks { (v : ℕ) → (mark_at tree.new.marks.items v).level ≡ unseen }
{
    let none = Mark {
        level: UNSEEN,
        via: Step {
            link: 0,
            way: Way::Forth,
        },
        narrow: 0,
    };
    tree.marks.fill(none);
    tree.count = 0;
}

/// Starts a tree anew, with the nodes of a side.
fn plant(inside: &Side, tree: &mut Tree)
    requires fits { length inside.now ≤ side_room }
    requires marks { length tree.old.marks.items ≡ length inside.now }
    requires queue { length tree.old.queue.items ≡ length inside.now }
    ensures filled { IsFilled (length inside.now) tree.new.marks.items tree.new.queue.items tree.new.count }
    ensures roots { (v : ℕ) → has inside.now v ≡ true → (mark_at tree.new.marks.items v).level < unseen }
    ensures forest { (links : List LinkOf) → IsSearchForest links inside.now tree.new.marks.items }
{
    clear(tree);
    let root = Mark {
        level: 0,
        via: Step {
            link: 0,
            way: Way::Forth,
        },
        narrow: u32::MAX,
    };
    for v in 0..inside.len() as u32 {
        if inside.has(v) {
            add(tree, v, root);
        }
    }
}

/// Reaches all nodes that can be reached from a side by steps with room.
pub fn search(links: &[Link], steps: &Adjacency, inside: &Side, tree: &mut Tree)
    requires network { IsAdjacency (length inside.now) links.now steps.now }
    requires marks { length tree.old.marks.items ≡ length inside.now }
    requires queue { length tree.old.queue.items ≡ length inside.now }
    ensures searched { IsSearched (length inside.now) links.now inside.now tree.new.marks.items }
    ensures queue { length tree.new.queue.items ≡ length inside.now }
{
    plant(inside, tree);
    let mut done = 0;
    while done < tree.count {
        let v = tree.queue[done];
        expand(links, steps.row(v), tree);
        done += 1;
    }
}

/// A node of a side that is reached, if there is one.
pub fn reached_in(side: &Side, marks: &[Mark]) -> Option<u32>
    requires fits { length side.now ≤ side_room }
    requires marks { length marks.now ≡ length side.now }
    ensures some { IfSome result (λ v. (v < length side.now) × (has side.now v ≡ true) × ((mark_at marks.now v).level < unseen)) }
    ensures none { IfNone result (IsMissed side.now marks.now) }
{
    for v in 0..side.len() as u32 {
        if side.has(v) && marks[v as usize].level != UNSEEN {
            return Some(v);
        }
    }
    None
}
