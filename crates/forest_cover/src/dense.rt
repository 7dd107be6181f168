ghost use Rattle.std.specs.Prelude.{◌≡◌, ◌≤◌, length, All};
ghost use Rattle.forest_cover.specs.Dense.{demand, IsDensest};

use graph_core::{Graph, Side, Sides};

/// How many forests the edges within the side ask for.
pub(crate) fn demand_of(graph: &Graph, side: &Side) -> u32
    requires { length side.now ≡ length graph.now.names }
    ensures { result ≡ demand graph.now.lines side.now }
{
    let size = side.count() as u64;
    if size > 1 {
        graph.induced(side).div_ceil(size - 1) as u32
    } else {
        0
    }
}

/// The place of a class that asks for most forests.
pub(crate) fn densest(graph: &Graph, classes: &Sides) -> usize
    requires some { 1 ≤ length classes.now }
    requires long { All (λ X. length X ≡ length graph.now.names) classes.now }
    ensures { IsDensest graph.now.lines classes.now result }
{
    let mut best = 0;
    for i in 1..classes.len() {
        if demand_of(graph, classes.item(i)) > demand_of(graph, classes.item(best)) {
            best = i;
        }
    }
    best
}
