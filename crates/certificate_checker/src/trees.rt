ghost use Rattle.std.specs.Prelude.{◌≡◌, ◌<◌, ◌≤◌, ◌↔◌, All, length, IsTrue, IfOk};
ghost use Rattle.graph_core.specs.Families.{members_with, IsPartition};
ghost use Rattle.graph_core.specs.Side.{size};
ghost use Rattle.problem_defs.specs.Shaped.{AreRows, AreSides};
ghost use Rattle.problem_defs.specs.Trees.{IsFeasible};

use crate::decide::Decide;
use crate::families::is_partition;
use crate::marks::are_disjoint;
use crate::parts::{are_forests, have_length};
use graph_core::{Graph, NoMemory, NumberRows, Sides};
use problem_defs::TreesAsk;
use std::alloc::Global;

/// Whether the rows are spanning trees, no edge in two.
fn are_trees(alloc: Global, graph: &Graph, rows: &NumberRows) -> Result<bool, NoMemory>
    requires { AreRows (length graph.now.lines) rows.now }
    ensures { IfOk result (λ trees. IsTrue trees ↔ IsFeasible graph.now rows.now) }
{
    graph.known();
    if !have_length(rows, graph.node_count() - 1) {
        return Ok(false);
    }
    if !are_disjoint(alloc, graph.line_count(), rows)? {
        return Ok(false);
    }
    are_forests(alloc, graph, rows)
}

impl Decide for TreesAsk {
    ghost object_fits = { λ g rows. AreRows (length g.lines) rows };

    ghost dual_fits = { λ g classes. AreSides (length g.names) classes };

    fn is_object(
        &self,
        alloc: Global,
        graph: &Graph,
        object: &NumberRows,
    ) -> Result<bool, NoMemory> {
        are_trees(alloc, graph, object)
    }

    fn is_dual(&self, graph: &Graph, dual: &Sides) -> bool {
        graph.known();
        dual.len() >= 2 && is_partition(dual, graph.node_count() as u32)
    }
}
