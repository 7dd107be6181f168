ghost use Rattle.std.specs.Prelude.{◌≡◌, ◌<◌, ◌≤◌, ◌+◌, ◌^◌, ◌==◌, ◌++◌, ℕ, length, slice_index, cond, IfOk, OnOk};
ghost use Rattle.graph_core.specs.Limits.{line_room};
ghost use Rattle.graph_core.specs.declared.graph.Kind.TheVariants.{Undirected};
ghost use Rattle.flow_cuts.specs.GraphArcs.{arcs_of};
ghost use Rattle.split_undirected.specs.CoveredStar.{room};
ghost use Rattle.split_undirected.specs.Network.{both_ways};

use cut_fn::Star;
use flow_cuts::{Cap, edge_arcs};
use graph_core::NoMemory;
use std::alloc::Global;

/// What is left of a star: the edges of its graph as arcs in both directions, and how many edges lead from the new node to
/// each other one.
#[derive(Drop)]
pub struct Rest {
    pub arcs: Vec<Cap>,
    pub counts: Vec<u64>,
}

/// Takes `q` edges to `u` and `q` to `v` away.
fn lower(counts: &mut [u64], u: u32, v: u32, q: u64)
    requires u { u < length counts.old }
    requires v { v < length counts.old }
    requires room { q ≤ room (slice_index counts.old) u v }
    ensures { (x : ℕ) → slice_index counts.new x + (cond (u == x) q 0 + cond (v == x) q 0) ≡ slice_index counts.old x }
{
    counts[u as usize] -= q;
    counts[v as usize] -= q;
}

impl Rest {
    pub fn of_star(alloc: Global, star: &Star) -> Result<Rest, NoMemory>
        requires { length star.now.graph.lines ≤ line_room }
        ensures arcs { IfOk result (λ rest. rest.arcs.items ≡ arcs_of Undirected star.now.graph.lines) }
        ensures counts { IfOk result (λ rest. rest.counts.items ≡ star.now.count) }
    {
        let arcs = edge_arcs(alloc, star.graph.lines())?;
        let counts = Vec::from_slice(alloc, star.count.as_slice())?;
        Ok(Rest { arcs, counts })
    }

    /// For how many pairs of `u` and `v` there are edges.
    pub fn room(&self, u: u32, v: u32) -> u64
        requires u { u < length self.now.counts.items }
        requires v { v < length self.now.counts.items }
        ensures { result ≡ room (slice_index self.now.counts.items) u v }
    {
        let first = self.counts[u as usize];
        let second = self.counts[v as usize];
        if u == v {
            first / 2
        } else if first <= second {
            first
        } else {
            second
        }
    }

    /// Splits `q` pairs of `u` and `v` off.
    pub fn split(&mut self, u: u32, v: u32, q: u64) -> Result<(), NoMemory>
        requires u { u < length self.old.counts.items }
        requires v { v < length self.old.counts.items }
        requires room { q ≤ room (slice_index self.old.counts.items) u v }
        requires small { q < 2 ^ 32 }
        ensures arcs { OnOk result (self.new.arcs.items ≡ self.old.arcs.items ++ both_ways u v q) }
        ensures long { OnOk result (length self.new.counts.items ≡ length self.old.counts.items) }
        ensures counts { OnOk result ((x : ℕ) → slice_index self.new.counts.items x + (cond (u == x) q 0 + cond (v == x) q 0) ≡ slice_index self.old.counts.items x) }
    {
        lower(&mut self.counts, u, v, q);
        self.arcs.push(Cap {
            tail: u,
            head: v,
            cap: q as u32,
        })?;
        self.arcs.push(Cap {
            tail: v,
            head: u,
            cap: q as u32,
        })?;
        Ok(())
    }
}
