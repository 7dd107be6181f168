ghost use Rattle.std.specs.Prelude.{◌≡◌, ◌+◌, ◌*◌, ◌<◌, ◌≤◌, ◌^◌, ℕ, Bool, List, length, All, IfOk};
ghost use Rattle.graph_core.specs.Limits.{node_room};
ghost use Rattle.graph_core.specs.Side.{has};
ghost use Rattle.flow_cuts.specs.Network.{across};
ghost use Rattle.certificate_checker.specs.Copies.{Counts, CountsMore, Writes};

use flow_cuts::Cap;
use graph_core::NoMemory;
use std::alloc::Global;

/// How many lines lead from each of `n` nodes to each, counted up to a limit: the number from u to v stands at place
/// `u * n + v`. A certificate may name more pairs than a network has room for, but not between more nodes.
#[derive(Drop)]
pub struct Copies {
    pub n: u32,
    pub most: u32,
    pub table: Vec<u32>,
    pub ghost nodes: { n ≤ node_room },
    pub ghost long: { length table.items ≡ n * n },
}

impl Copies {
    /// No line yet.
    pub fn new(alloc: Global, n: u32, most: u32) -> Result<Copies, NoMemory>
        requires { n ≤ node_room }
        ensures n { IfOk result (λ copies. copies.n ≡ n) }
        ensures most { IfOk result (λ copies. copies.most ≡ most) }
        ensures none { IfOk result (λ copies. Counts n most copies.table.items (λ _. 0)) }
    {
        let table = Vec::from_elem(alloc, 0, n as usize * n as usize)?;
        Ok(Copies { n, most, table })
    }

    /// Counts a line from a node to another.
    pub fn add(&mut self, tail: u32, head: u32)
        requires tail { tail < self.old.n }
        requires head { head < self.old.n }
        ensures n { self.new.n ≡ self.old.n }
        ensures most { self.new.most ≡ self.old.most }
        ensures counted { CountsMore self.old.n self.old.most self.old.table.items self.new.table.items (λ X. across (has X tail) (has X head) 1) }
    {
        let place = tail as usize * self.n as usize + head as usize;
        if self.table[place] < self.most {
            self.table[place] += 1;
        }
    }

    /// The network with these numbers for capacities.
    pub fn arcs(&self, alloc: Global) -> Result<Vec<Cap>, NoMemory>
        requires { 1 ≤ self.now.n }
        ensures { IfOk result (λ arcs. Writes self.now.n arcs.items self.now.table.items) }
    {
        let mut arcs = Vec::new(alloc);
        for place in 0..self.table.len() {
            let cap = self.table[place];
            if cap > 0 {
                let tail = (place / self.n as usize) as u32;
                let head = (place % self.n as usize) as u32;
                arcs.push(Cap { tail, head, cap })?;
            }
        }
        Ok(arcs)
    }
}
