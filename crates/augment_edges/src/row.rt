ghost use Rattle.std.specs.Prelude.{◌≡◌, ◌≤◌, true, length, All, Contains, IfOk};
ghost use Rattle.graph_core.specs.Limits.{side_room};
ghost use Rattle.graph_core.specs.Side.{has};
ghost use Rattle.problem_defs.specs.Certified.{IsCertified};
ghost use Rattle.augment_edges.specs.Row.{AreInRow};

use graph_core::{Graph, NoMemory, Pairs, Side};
use graphic_matroid::graph_components;
use problem_defs::{AugmentAsk, Certified, Problem};
use std::alloc::Global;

/// A node of a side.
fn node_of(side: &Side) -> u32
    requires long { length side.now ≤ side_room }
    requires some { Contains side.now true }
    ensures { has side.now result ≡ true }
{
    for v in 0..side.len() as u32 {
        if side.has(v) {
            return v;
        }
    }
    unreachable!("a node is in the side")
}

/// Pairs that join one class after another in a row.
fn row_of(alloc: Global, classes: &[Side]) -> Result<Pairs, NoMemory>
    requires { All (λ C. (length C ≤ side_room) × Contains C true) classes.now }
    ensures { IfOk result (AreInRow classes.now) }
{
    let mut pairs = Pairs::new(alloc);
    for i in 1..classes.len() {
        let first = node_of(&classes[i - 1]);
        let second = node_of(&classes[i]);
        pairs.push((first, second))?;
    }
    Ok(pairs)
}

/// Fewest new edges that connect the graph: its components joined in a row.
pub fn join_components(alloc: Global, graph: &Graph) -> Result<Certified<AugmentAsk>, NoMemory>
    ensures ask { IfOk result (λ found. found.ask ≡ record { k = 1 }) }
    ensures certified { IfOk result (λ found. IsCertified ⟦<AugmentAsk as Problem>⟧ graph.now found.ask found.object found.dual) }
{
    graph.known();
    let dual = graph_components(alloc, graph)?;
    let object = row_of(alloc, dual.as_slice())?;
    Ok(Certified {
        ask: AugmentAsk { k: 1 },
        object,
        dual,
    })
}
