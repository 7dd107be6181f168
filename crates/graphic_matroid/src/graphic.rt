ghost use Rattle.std.specs.Prelude.{◌≡◌, ◌↔◌, ◌<◌, ◌≤◌, ◌^◌, length, count_by, IsTrue, IfOk};
ghost use Rattle.graph_core.specs.Limits.{line_room};
ghost use Rattle.graph_core.specs.Trees.{IsAcyclic};
ghost use Rattle.graphic_matroid.specs.Chosen.{chosen};
ghost use Rattle.graphic_matroid.specs.Unfit.{unfit};

use crate::classes::Classes;
use graph_core::{Graph, Line, Marks, NoMemory};
use matroid_union::Matroid;
use std::alloc::Global;

/// A forest that grows line by line, and the classes of the nodes that its lines join.
#[derive(Debug, Drop)]
pub struct GrowingForest {
    pub(crate) marks: Vec<bool>,
    pub(crate) classes: Classes,
}

/// The lines of a graph as the elements of a matroid, of which the forests are free.
#[derive(Debug, Drop)]
pub struct Graphic {
    /// How many nodes the graph has.
    pub nodes: usize,
    /// The lines, of which line j is element j.
    pub lines: Vec<Line>,
    pub(crate) classes: Classes,
    pub ghost few_nodes: { nodes < 2 ^ 32 },
    pub ghost few_lines: { length lines.items ≤ line_room },
    pub ghost fit: { count_by (unfit nodes) lines.items ≡ 0 },
    pub ghost parents_long: { length classes.parents.items ≡ nodes },
    pub ghost ranks_long: { length classes.ranks.items ≡ nodes },
}

impl Graphic {
    /// The matroid of the graph's forests, with all the memory that `is_free` needs.
    pub fn new(alloc: Global, graph: &Graph) -> Result<Graphic, NoMemory>
        ensures nodes { IfOk result (λ g. g.nodes ≡ length graph.now.names) }
        ensures lines { IfOk result (λ g. g.lines.items ≡ graph.now.lines) }
    {
        graph.known();
        let nodes = graph.node_count();
        let Ok(lines) = Vec::from_slice(alloc, graph.lines()) else {
            return Err(NoMemory);
        };
        let classes = Classes::new(alloc, nodes)?;
        Ok(Graphic {
            nodes,
            lines,
            classes,
        })
    }
}

impl Matroid for Graphic {
    ghost use Rattle.std.specs.Prelude.{length};
    ghost use Rattle.graph_core.specs.Trees.{IsAcyclic};
    ghost use Rattle.graphic_matroid.specs.Chosen.{chosen};
    ghost use Rattle.graphic_matroid.specs.ForestLaws.{forest_matroid};
    ghost use Rattle.graphic_matroid.specs.Growing.{IsGrowingForest};

    type Set = GrowingForest;

    ghost count = { λ g. length g.lines.items };

    ghost free = { λ g X. IsAcyclic g.nodes (chosen X g.lines.items) };

    ghost members = { λ set. set.marks.items };

    ghost keeps = { λ g set. IsGrowingForest g.nodes g.lines.items set.marks.items set.classes.parents.items set.classes.ranks.items };

    ghost laws = { λ g. forest_matroid g.nodes g.lines.items g.fit };

    fn size(&self) -> usize {
        self.lines.len()
    }

    fn is_free(&mut self, set: &Marks) -> bool {
        is_forest(&self.lines, set, &mut self.classes)
    }

    fn no_elements(&self, alloc: Global) -> Result<GrowingForest, NoMemory> {
        let marks = Vec::from_elem(alloc, false, self.size())?;
        let classes = Classes::new(alloc, self.nodes)?;
        Ok(GrowingForest { marks, classes })
    }

    fn clear(&self, set: &mut GrowingForest) {
        set.marks.fill(false);
        set.classes.reset();
    }

    fn takes(&self, set: &GrowingForest, element: u32) -> bool {
        let line = element as usize;
        set.marks[line] || set.classes.two_roots(self.lines[line]).is_some()
    }

    fn add(&self, set: &mut GrowingForest, element: u32) {
        let line = element as usize;
        if !set.marks[line] {
            set.marks[line] = true;
            set.classes.join_ends(self.lines[line]);
        }
    }
}

/// Whether the lines of the set are a forest. It joins the classes of their ends one by one.
fn is_forest(lines: &[Line], set: &Marks, classes: &mut Classes) -> bool
    requires few_nodes { length classes.old.parents.items < 2 ^ 32 }
    requires few_lines { length lines.now ≤ line_room }
    requires alike { length classes.old.ranks.items ≡ length classes.old.parents.items }
    requires fit { count_by (unfit (length classes.old.parents.items)) lines.now ≡ 0 }
    requires long { length set.now ≡ length lines.now }
    ensures answer { IsTrue result ↔ IsAcyclic (length classes.old.parents.items) (chosen set.now lines.now) }
    ensures parents_long { length classes.new.parents.items ≡ length classes.old.parents.items }
    ensures ranks_long { length classes.new.ranks.items ≡ length classes.old.parents.items }
{
    classes.reset();
    for j in 0..lines.len() {
        if *set.item(j) && !classes.join_ends(lines[j]) {
            return false;
        }
    }
    true
}
