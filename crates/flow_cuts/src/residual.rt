ghost use Rattle.std.specs.Prelude.{◌≡◌, ℕ, ◌≤◌, List, Bool, length, IfOk};
ghost use Rattle.flow_cuts.specs.Residual.{EachFits, AreLinksOf, IsFlow};
ghost use Rattle.flow_cuts.specs.Cuts.{IsSmallestCut, IsLargestCut};
ghost use Rattle.flow_cuts.specs.Search.{IsAdjacency, IsSearched, IsMissed};
ghost use Rattle.flow_cuts.specs.Ready.{IsReady, HasRun};
ghost use Rattle.flow_cuts.specs.declared.network.Cap.{Cap as CapOf};
ghost use Rattle.graph_core.specs.Limits.{side_room};

use crate::course::Course;
use crate::levels::send_by_levels;
use crate::network::Link;
use crate::search::{Tree, search};
use crate::sides::{reflect, write_missed, write_reached};
use graph_core::{NoMemory, Side};
use std::alloc::Global;

/// What a run changes: what may still go along the links, what was searched, and the two sides that it found.
#[derive(Drop)]
pub struct Residual {
    pub links: Vec<Link>,
    pub mirror: Vec<Link>,
    pub tree: Tree,
    pub next: Vec<usize>,
    pub near: Side,
    pub far: Side,
}

/// After a search that missed the outside: the least cut next to the inside and the one next to the outside.
fn find_sides(
    course: &Course,
    links: &[Link],
    tree: &mut Tree,
    mirror: &mut [Link],
    near: &mut Side,
    far: &mut Side,
)
    requires adjacency { IsAdjacency (length course.now.outside) links.now course.now.steps }
    requires mirror { length mirror.old ≡ length links.now }
    requires marks { length tree.old.marks.items ≡ length course.now.outside }
    requires queue { length tree.old.queue.items ≡ length course.now.outside }
    requires near { length near.old ≡ length course.now.outside }
    requires far { length far.old ≡ length course.now.outside }
    ensures marks { length tree.new.marks.items ≡ length course.now.outside }
    ensures queue { length tree.new.queue.items ≡ length course.now.outside }
    ensures near { length near.new ≡ length course.now.outside }
    ensures far { length far.new ≡ length course.now.outside }
    ensures smallest { (inside : List Bool) (arcs : List CapOf) (value : ℕ) → IsFlow (length course.now.outside) inside course.now.outside arcs links.now value → IsSearched (length course.now.outside) links.now inside tree.old.marks.items → IsMissed course.now.outside tree.old.marks.items → IsSmallestCut (length course.now.outside) inside course.now.outside arcs value near.new }
    ensures largest { (inside : List Bool) (arcs : List CapOf) (value : ℕ) → length inside ≡ length course.now.outside → IsFlow (length course.now.outside) inside course.now.outside arcs links.now value → IsSearched (length course.now.outside) links.now inside tree.old.marks.items → IsMissed course.now.outside tree.old.marks.items → IsLargestCut (length course.now.outside) inside course.now.outside arcs value far.new }
{
    write_reached(&tree.marks, near);
    reflect(links, mirror);
    search(mirror, &course.steps, &course.outside, tree);
    write_missed(&tree.marks, far);
}

impl Residual {
    /// What a run changes, before the first run.
    pub fn new(alloc: Global, n: usize, whole: &[Link]) -> Result<Residual, NoMemory>
        requires { n ≤ side_room }
        ensures { IfOk result (IsReady n whole.now) }
    {
        let links = Vec::from_slice(alloc, whole)?;
        let mirror = Vec::from_slice(alloc, whole)?;
        let tree = Tree::new(alloc, n)?;
        let next = vec![in alloc; 0; n]?;
        let near = Side::empty(alloc, n)?;
        let far = Side::empty(alloc, n)?;
        Ok(Residual {
            links,
            mirror,
            tree,
            next,
            near,
            far,
        })
    }

    /// Sends as much as can go from the inside to the outside through the whole links, but no more than `stop`.
    pub fn renew(&mut self, whole: &[Link], course: &Course, stop: u64) -> u64
        requires ready { IsReady (length course.now.inside) whole.now self.old }
        requires adjacency { IsAdjacency (length course.now.inside) whole.now course.now.steps }
        requires fits { EachFits whole.now }
        requires outside { length course.now.outside ≡ length course.now.inside }
        ensures ready { IsReady (length course.now.inside) whole.now self.new }
        ensures run { (arcs : List CapOf) → AreLinksOf arcs whole.now → HasRun (length course.now.inside) course.now.inside course.now.outside arcs stop result self.new }
    {
        self.links.copy_from_slice(whole);
        let answer = send_by_levels(
            course,
            stop,
            &mut self.links,
            &mut self.tree,
            &mut self.next,
        );
        if answer == stop {
            return answer;
        }
        find_sides(
            course,
            &self.links,
            &mut self.tree,
            &mut self.mirror,
            &mut self.near,
            &mut self.far,
        );
        answer
    }
}
