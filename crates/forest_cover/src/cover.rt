ghost use Rattle.std.specs.Prelude.{◌≡◌, ◌<◌, ◌≤◌, ◌^◌, length, replicate, true, sum_by, IfOk};
ghost use Rattle.problem_defs.specs.Certified.{IsCertified};
ghost use Rattle.problem_defs.specs.Forests.{Suits};
ghost use Rattle.graph_core.specs.Limits.{side_room};

use crate::dense::{demand_of, densest};
use graph_core::{Graph, NoMemory, NumberRows, Side};
use graphic_matroid::{Forests, most_forests};
use problem_defs::{Certified, ForestDual, ForestsAsk, Problem};
use std::alloc::Global;

/// The fewest forests that cover the edges, and a side that shows that fewer don't (Nash-Williams).
/// While as many forests as a side asks for leave an edge out, one of their classes asks for more.
pub fn cover_forests(alloc: Global, graph: &Graph) -> Result<Certified<ForestsAsk>, NoMemory>
    requires { Suits graph.now }
    ensures ask { IfOk result (λ found. found.ask ≡ record {}) }
    ensures certified { IfOk result (λ found. IsCertified ⟦<ForestsAsk as Problem>⟧ graph.now found.ask found.object found.dual) }
{
    graph.known();
    if graph.line_count() == 0 {
        return Ok(Certified {
            ask: ForestsAsk,
            object: NumberRows::new(alloc),
            dual: ForestDual::Nothing,
        });
    }
    let mut side = all_nodes(alloc, graph.node_count())?;
    'improve: loop {
        let Forests { rows, mut classes } = most_forests(alloc, graph, demand_of(graph, &side))?;
        if lines_of(&rows) == graph.line_count() as u64 {
            return Ok(Certified {
                ask: ForestsAsk,
                object: rows,
                dual: ForestDual::Induced(side),
            });
        }
        side = classes.remove(densest(graph, &classes));
    }
}

/// The side of all nodes.
fn all_nodes(alloc: Global, n: usize) -> Result<Side, NoMemory>
    requires { n ≤ side_room }
    ensures { IfOk result (λ side. side ≡ replicate n true) }
{
    let mut side = Side::empty(alloc, n)?;
    side.complement();
    Ok(side)
}

/// How many lines the rows have together.
fn lines_of(rows: &NumberRows) -> u64
    requires { sum_by length rows.now < 2 ^ 64 }
    ensures { result ≡ sum_by length rows.now }
{
    let mut lines: u64 = 0;
    for row in rows.as_slice() {
        lines += row.len() as u64;
    }
    lines
}
