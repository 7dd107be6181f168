ghost use Rattle.std.specs.Prelude.{◌≡◌, ◌<◌, length, replicate, IfOk, OnOk, None};
ghost use Rattle.std.specs.Bool.{OnTrue, OnFalse};
ghost use Rattle.problem_defs.specs.Dijoin.{IsFeasible};
ghost use Rattle.dicut_lattice.specs.Tight.{AreSeparated, IsAllowed};
ghost use Rattle.lucchesi_younger.specs.Marks.{AreMarks};
ghost use Rattle.lucchesi_younger.specs.Rows.{AreRows, HasRow};

use crate::marks::marks_of;
use dicut_lattice::Kernels;
use graph_core::{Graph, Items, Marks, NoMemory, Numbers, Side};
use std::alloc::Global;

/// What stays as long as the dijoin does: what its tight sides have in common, marks of its arcs, and a row for
/// each node, with the kernel of that node once it was asked for.
#[derive(Drop)]
pub(crate) struct Held<'a> {
    pub(crate) kernels: Kernels<'a>,
    pub(crate) taken: Marks,
    rows: Items<Option<Side>>,
    found: Side,
    ghost marks: { AreMarks (length kernels.graph.lines) kernels.join taken },
    ghost found_long: { length found ≡ length kernels.graph.names },
    ghost rows_long: { length rows ≡ length kernels.graph.names },
    ghost each: { AreRows kernels.graph kernels.join rows },
}

impl<'a> Held<'a> {
    /// Of this dijoin, with no kernel yet.
    pub(crate) fn new(
        alloc: Global,
        graph: &'a Graph,
        join: &'a Numbers,
    ) -> Result<Held<'a>, NoMemory>
        requires { IsFeasible graph.now join.now }
        ensures { IfOk result (λ held. held.kernels ≡ record { graph = graph.now; join = join.now }) }
    {
        graph.known();
        let n = graph.node_count();
        let taken = marks_of(alloc, graph.line_count(), join)?;
        let rows = blank_rows(alloc, n)?;
        let found = Side::empty(alloc, n)?;
        let kernels = Kernels::new(alloc, graph, join)?;
        Ok(Held {
            kernels,
            taken,
            rows,
            found,
        })
    }

    /// Whether the jump from one node to another is allowed. If it isn't, a tight side holds the first and misses
    /// the other.
    pub(crate) fn leads(&mut self, alloc: Global, from: u32, to: u32) -> Result<bool, NoMemory>
        requires from { from < length self.old.kernels.graph.names }
        requires to { to < length self.old.kernels.graph.names }
        ensures kernels { OnOk result (self.new.kernels ≡ self.old.kernels) }
        ensures yes { IfOk result (λ leads. OnTrue leads (IsAllowed self.old.kernels.graph self.old.kernels.join to from)) }
        ensures no { IfOk result (λ leads. OnFalse leads (AreSeparated self.old.kernels.graph self.old.kernels.join from to)) }
    {
        self.look_from(alloc, from)?;
        let leads = self.row_has(from, to);
        Ok(leads)
    }

    /// Finds the kernel of a node, unless its row has it.
    fn look_from(&mut self, alloc: Global, node: u32) -> Result<(), NoMemory>
        requires { node < length self.old.kernels.graph.names }
        ensures kernels { OnOk result (self.new.kernels ≡ self.old.kernels) }
        ensures row { OnOk result (HasRow self.new.rows node) }
    {
        if self.rows.item(node as usize).is_none() {
            self.kernels.kernel(node, &mut self.found);
            let kernel = self.found.copy(alloc)?;
            *self.rows.item_mut(node as usize) = Some(kernel);
        }
        Ok(())
    }

    /// Whether the kernel in the row of a node has another one.
    fn row_has(&self, node: u32, other: u32) -> bool
        requires row { HasRow self.now.rows node }
        requires other { other < length self.now.kernels.graph.names }
        ensures yes { OnTrue result (IsAllowed self.now.kernels.graph self.now.kernels.join other node) }
        ensures no { OnFalse result (AreSeparated self.now.kernels.graph self.now.kernels.join node other) }
    {
        match self.rows.item(node as usize) {
            Some(kernel) => kernel.has(other),
            None => unreachable!("the row of the node was found"),
        }
    }
}

/// A row for each of n nodes, with no kernel.
fn blank_rows(alloc: Global, n: usize) -> Result<Items<Option<Side>>, NoMemory>
    ensures { IfOk result (λ rows. rows ≡ replicate n None) }
{
    let mut rows = Items::new(alloc);
    'nodes: for node in 0..n {
        rows.push(None)?;
    }
    Ok(rows)
}
