ghost use Rattle.std.specs.Prelude.{◌≡◌, ◌<◌, ◌≤◌, length, replicate, slice_set, IfOk};
ghost use Rattle.graph_core.specs.Graph.{IsWithinSize};
ghost use Rattle.problem_defs.specs.Arborescences.{Suits};
ghost use Rattle.problem_defs.specs.Certified.{IsCertified};
ghost use Rattle.flow_cuts.specs.Cuts.{IsLeastCapacity, IsMinimumCut};
ghost use Rattle.edmonds_branchings.specs.LeastSide.{IsLeastSide};

use crate::packing::pack_rooted;
use flow_cuts::{Flow, arcs_by};
use graph_core::{Counts, Graph, NoMemory, Side};
use problem_defs::{ArborescencesAsk, Certified, Problem, Way};
use std::alloc::Global;

/// The smaller of the value and the least capacity of a cut between the two sides. Where a cut has less, `least` becomes it.
fn lower(flow: &mut Flow, inside: &Side, outside: &Side, least: &mut Side, value: u64) -> u64
    requires inside { length inside.now ≡ flow.old.nodes }
    requires outside { length outside.now ≡ flow.old.nodes }
    requires least { length least.old ≡ flow.old.nodes }
    ensures nodes { flow.new.nodes ≡ flow.old.nodes }
    ensures arcs { flow.new.arcs ≡ flow.old.arcs }
    ensures value { IsLeastCapacity flow.old.nodes inside.now outside.now flow.old.arcs value result }
    ensures kept { value ≤ result → least.new ≡ least.old }
    ensures cut { result < value → IsMinimumCut flow.old.nodes inside.now outside.now flow.old.arcs result least.new }
{
    let answer = flow.run(inside, outside, value);
    if answer < value {
        flow.side(least);
    }
    answer
}

/// A nonempty side without the root that the fewest arcs enter, by n - 1 least cuts.
fn least_side(alloc: Global, graph: &Graph, root: u32) -> Result<Side, NoMemory>
    requires { Suits root graph.now }
    ensures { IfOk result (IsLeastSide (length graph.now.names) graph.now.lines root) }
{
    graph.known();
    let n = graph.node_count();
    let arcs = arcs_by(alloc, Way::Entering, graph.lines())?;
    let mut flow = Flow::of_arcs(alloc, n, &arcs)?;
    let mut inside = Side::empty(alloc, n)?;
    let mut outside = Side::empty(alloc, n)?;
    let mut least = Side::empty(alloc, n)?;
    outside.hold_only(root);
    least.hold_only(root);
    least.complement();
    let mut value = graph.entering(&least);
    for v in 0..n as u32 {
        if v != root {
            inside.hold_only(v);
            value = lower(&mut flow, &inside, &outside, &mut least, value);
        }
    }
    Ok(least)
}

/// All `k` branchings may begin at the root, and none at another node.
fn one_root(alloc: Global, n: usize, root: u32, k: u64) -> Result<Counts, NoMemory>
    requires { root < n }
    ensures { IfOk result (λ roots. roots ≡ slice_set (replicate n 0) root k) }
{
    let mut roots = vec![in alloc; 0u64; n]?;
    roots[root as usize] = k;
    Ok(Counts::from_vec(roots))
}

/// The most arc-disjoint spanning arborescences of a root, and a side that shows that there are no more (Edmonds 1973).
pub fn pack_arborescences(
    alloc: Global,
    graph: &Graph,
    root: u32,
) -> Result<Certified<ArborescencesAsk>, NoMemory>
    requires suits { Suits root graph.now }
    requires size { IsWithinSize graph.now }
    ensures ask { IfOk result (λ found. found.ask ≡ record { root = root }) }
    ensures certified { IfOk result (λ found. IsCertified ⟦<ArborescencesAsk as Problem>⟧ graph.now found.ask found.object found.dual) }
{
    graph.known();
    let dual = least_side(alloc, graph, root)?;
    let k = graph.entering(&dual);
    let roots = one_root(alloc, graph.node_count(), root, k)?;
    let object = pack_rooted(alloc, graph, &roots, k as u32)?;
    Ok(Certified {
        ask: ArborescencesAsk { root },
        object,
        dual,
    })
}
