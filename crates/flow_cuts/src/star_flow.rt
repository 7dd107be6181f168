ghost use Rattle.std.specs.Prelude.{◌≡◌, ◌+◌, ◌<◌, ◌≤◌, ◌^◌, ℕ, Bool, List, length, All, Some, IfOk};
ghost use Rattle.graph_core.specs.Limits.{side_room};
ghost use Rattle.graph_core.specs.Side.{has};
ghost use Rattle.cut_fn.specs.TwoSides.{IsWithin};
ghost use Rattle.flow_cuts.specs.Cuts.{IsLeastCapacity};
ghost use Rattle.flow_cuts.specs.LeastMissing.{HasMissing, IsLeastMissing};
ghost use Rattle.flow_cuts.specs.NewNode.{with_new_node, value_with, AreArcs};
ghost use Rattle.flow_cuts.specs.StarRun.{AreRunSides};

use crate::arcs::add_new_node;
use crate::flow::Flow;
use crate::network::Cap;
use graph_core::{NoMemory, Side};
use std::alloc::Global;

/// Flows in the network of a star: arcs among nodes, and an arc from each node to a new one, with the node's count for its
/// capacity. Of n nodes the new one is node n. The value of a side of the n nodes is the capacity that leaves it, over the arcs
/// and to the new node.
#[derive(Drop)]
pub struct StarFlow<'a> {
    pub arcs: &'a [Cap],
    pub counts: &'a [u64],
    flow: Flow,
    inside: Side,
    outside: Side,
    ghost few: { length counts.now < side_room },
    ghost nodes: { flow.nodes ≡ length counts.now + 1 },
    ghost network: { flow.arcs ≡ with_new_node arcs.now counts.now },
    ghost inside_long: { length inside ≡ length counts.now + 1 },
    ghost outside_long: { length outside ≡ length counts.now + 1 },
}

/// Makes the first `n` nodes of a side those of another.
fn copy_nodes(into: &mut Side, from: &Side, n: u32)
    requires into { n ≤ length into.old }
    requires from { n ≤ length from.now }
    ensures long { length into.new ≡ length into.old }
    ensures first { (v : ℕ) → v < n → has into.new v ≡ has from.now v }
{
    for v in 0..n {
        into.put(v, from.has(v));
    }
}

impl<'a> StarFlow<'a> {
    /// Makes the network. The other calls take no memory.
    pub fn new(alloc: Global, arcs: &'a [Cap], counts: &'a [u64]) -> Result<StarFlow<'a>, NoMemory>
        requires nodes { length counts.now < side_room }
        requires arcs { AreArcs (length counts.now) arcs.now }
        requires small { All (λ count. count < 2 ^ 32) counts.now }
        ensures arcs { IfOk result (λ star. star.arcs.now ≡ arcs.now) }
        ensures counts { IfOk result (λ star. star.counts.now ≡ counts.now) }
    {
        let n = counts.len();
        let network = add_new_node(alloc, arcs, counts)?;
        let flow = Flow::of_arcs(alloc, n + 1, &network)?;
        let inside = Side::empty(alloc, n + 1)?;
        let outside = Side::empty(alloc, n + 1)?;
        Ok(StarFlow {
            arcs,
            counts,
            flow,
            inside,
            outside,
        })
    }

    /// Runs from the nodes held to the node missed and the new one.
    fn run(&mut self, held: &Side, missed: u32, stop: u64) -> u64
        requires held { length held.now ≡ length self.old.counts.now }
        requires missed { missed ≤ length self.old.counts.now }
        ensures arcs { self.new.arcs.now ≡ self.old.arcs.now }
        ensures counts { self.new.counts.now ≡ self.old.counts.now }
        ensures sides { AreRunSides (length self.old.counts.now) held.now missed self.new.inside self.new.outside }
        ensures least { IsLeastCapacity (length self.old.counts.now + 1) self.new.inside self.new.outside (with_new_node self.old.arcs.now self.old.counts.now) stop result }
        ensures ran { self.new.flow.last ≡ Some (record { inside = self.new.inside; outside = self.new.outside; stop = stop; answer = result }) }
    {
        let n = self.counts.len() as u32;
        copy_nodes(&mut self.inside, held, n);
        self.inside.put(n, false);
        self.outside.hold_only(n);
        self.outside.put(missed, true);
        self.flow.run(&self.inside, &self.outside, stop)
    }

    /// The smaller of `stop` and the least value of a side that holds one side and misses a node, which may be the new one.
    /// Below `stop`, `into` becomes the smallest side with this value, which lies within each other one.
    pub fn least(&mut self, held: &Side, missed: u32, stop: u64, into: &mut Side) -> u64
        requires held { length held.now ≡ length self.old.counts.now }
        requires missed { missed ≤ length self.old.counts.now }
        requires into { length into.old ≡ length self.old.counts.now }
        ensures arcs { self.new.arcs.now ≡ self.old.arcs.now }
        ensures counts { self.new.counts.now ≡ self.old.counts.now }
        ensures long { length into.new ≡ length into.old }
        ensures kept { stop ≤ result → into.new ≡ into.old }
        ensures least { IsLeastMissing (length self.old.counts.now) (value_with self.old.arcs.now self.old.counts.now) held.now missed stop result into.new }
        ensures smallest { result < stop → (X : List Bool) → HasMissing (length self.old.counts.now) (value_with self.old.arcs.now self.old.counts.now) held.now missed result X → IsWithin into.new X }
    {
        let answer = self.run(held, missed, stop);
        if answer < stop {
            self.flow.side(&mut self.inside);
            copy_nodes(into, &self.inside, self.counts.len() as u32);
        }
        answer
    }

    /// As `least`, but `into` becomes the largest such side.
    pub fn least_wide(&mut self, held: &Side, missed: u32, stop: u64, into: &mut Side) -> u64
        requires held { length held.now ≡ length self.old.counts.now }
        requires missed { missed ≤ length self.old.counts.now }
        requires into { length into.old ≡ length self.old.counts.now }
        ensures arcs { self.new.arcs.now ≡ self.old.arcs.now }
        ensures counts { self.new.counts.now ≡ self.old.counts.now }
        ensures long { length into.new ≡ length into.old }
        ensures kept { stop ≤ result → into.new ≡ into.old }
        ensures least { IsLeastMissing (length self.old.counts.now) (value_with self.old.arcs.now self.old.counts.now) held.now missed stop result into.new }
        ensures largest { result < stop → (X : List Bool) → HasMissing (length self.old.counts.now) (value_with self.old.arcs.now self.old.counts.now) held.now missed result X → IsWithin X into.new }
    {
        let answer = self.run(held, missed, stop);
        if answer < stop {
            self.flow.wide_side(&mut self.inside);
            copy_nodes(into, &self.inside, self.counts.len() as u32);
        }
        answer
    }
}
