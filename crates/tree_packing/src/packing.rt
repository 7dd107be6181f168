ghost use Rattle.std.specs.Prelude.{◌≡◌, ◌↔◌, length, All, IsTrue, IfOk};
ghost use Rattle.problem_defs.specs.Certified.{IsCertified};
ghost use Rattle.problem_defs.specs.Trees.{Suits, IsDual, bound};

use crate::first::first_partition;
use graph_core::{Graph, NoMemory, NumberRows, Sides};
use graphic_matroid::{Forests, most_forests};
use problem_defs::{Certified, Problem, TreesAsk};
use std::alloc::Global;

/// The most edge-disjoint spanning trees, and a partition that shows that there are no more (Tutte; Nash-Williams).
/// While as many forests as a partition allows aren't all spanning trees, their classes allow fewer.
pub fn pack_trees(alloc: Global, graph: &Graph) -> Result<Certified<TreesAsk>, NoMemory>
    requires { Suits graph.now }
    ensures ask { IfOk result (λ found. found.ask ≡ record {}) }
    ensures certified { IfOk result (λ found. IsCertified ⟦<TreesAsk as Problem>⟧ graph.now found.ask found.object found.dual) }
{
    graph.known();
    let mut dual = first_partition(alloc, graph)?;
    'improve: loop {
        let Forests { rows, classes } = most_forests(alloc, graph, bound_of(graph, &dual))?;
        if have_length(&rows, graph.node_count() - 1) {
            return Ok(Certified {
                ask: TreesAsk,
                object: rows,
                dual,
            });
        }
        dual = classes;
    }
}

/// How many spanning trees the partition allows.
pub(crate) fn bound_of(graph: &Graph, dual: &Sides) -> u32
    requires { IsDual graph.now dual.now }
    ensures { result ≡ bound graph.now dual.now }
{
    (graph.between(dual) / (dual.len() as u64 - 1)) as u32
}

/// Whether each row has this length.
fn have_length(rows: &NumberRows, wanted: usize) -> bool
    ensures { IsTrue result ↔ All (λ row. length row ≡ wanted) rows.now }
{
    rows.as_slice().iter().all(|row| row.len() == wanted)
}
