//! Each call through its bound, on nodes `a` and `b` with the arcs ab, ab and ba.

ghost use Rattle.std.specs.Prelude.{◌≡◌, ◌<◌, length};

use crate::asserts::same;
use cut_fn::{CutFn, EdgeCut, EnterCut, LeaveCut, Symmetric};
use graph_core::Side;
use std::test::Fail;
use test_graphs::graph_of;

const THREE_ARCS: &[u8] = b"graph directed\nnode a\nnode b\narc a b\narc a b\narc b a\nend\n";

fn size_and_value<F: CutFn>(f: &F, side: &Side) -> (usize, u64)
    requires { length side.now ≡ F.nodes f.now }
{
    (f.size(), f.value(side))
}

fn first_weight<F: Symmetric>(f: &F) -> u64
    requires { 0 < F.nodes f.now }
{
    f.weight(0)
}

#[test]
fn cut_functions_count_the_lines_at_one_node(rt: HostRuntime) -> Result<(), Fail> {
    let graph = graph_of(rt.alloc(), THREE_ARCS)?;
    assert!(rt; graph.node_count() == 2);
    let mut side = Side::empty(rt.alloc(), 2)?;
    side.put(0, true);
    let edges = EdgeCut::new(&graph);
    same(&rt, &size_and_value(&edges, &side), &(2, 3), &"d");
    same(
        &rt,
        &size_and_value(&EnterCut::new(&graph), &side),
        &(2, 1),
        &"ρ",
    );
    same(
        &rt,
        &size_and_value(&LeaveCut::new(&graph), &side),
        &(2, 2),
        &"δ",
    );
    same(&rt, &first_weight(&edges), &0, &"weight");
    Ok(())
}
