ghost use Rattle.std.specs.Prelude.{◌≡◌, ◌≢◌, ◌<◌, ℕ, [], length, IfOk};
ghost use Rattle.dicut_lattice.specs.Reach.{leads, leads_by, AreSquare, AreRows, LeadsTo, LeadsOn, IsReach};

use graph_core::{Graph, NoMemory, Side, Sides};
use std::alloc::Global;
use std::marker::Model;

/// For each node of a digraph the nodes that it reaches along arcs.
#[derive(Drop)]
pub(crate) struct Reach<'a> {
    graph: &'a Graph,
    rows: Sides,
}

impl<'a> Model for Reach<'a> {
    ghost use Rattle.std.specs.Prelude.{length};
    ghost use Rattle.graph_core.specs.Graph.{GraphValue};
    ghost use Rattle.dicut_lattice.specs.Reach.{AreSquare, AreReached};

    ghost Value = { GraphValue };

    ghost view = { λ r. r.graph.now };

    ghost invariant = { λ r. AreSquare (length r.graph.now.names) r.rows × AreReached r.graph.now r.rows };
}

impl<'a> Reach<'a> {
    /// Warshall's: a row that has a node takes in the row of that node, one node after another.
    pub(crate) fn of(alloc: Global, graph: &'a Graph) -> Result<Reach<'a>, NoMemory>
        ensures { IfOk result (λ reach. reach ≡ graph.now) }
    {
        graph.known();
        let mut rows = first_rows(alloc, graph)?;
        for k in 0..graph.node_count() as u32 {
            lead_on(&mut rows, k);
        }
        Ok(Reach { graph, rows })
    }

    /// What the node reaches.
    pub(crate) fn side(&self, v: u32) -> &Side
        requires { v < length self.now.names }
        ensures { IsReach self.now v result.now }
    {
        self.rows.item(v as usize)
    }
}

/// For each node itself and the heads of its arcs.
fn first_rows(alloc: Global, graph: &Graph) -> Result<Sides, NoMemory>
    ensures { IfOk result (AreRows graph.now graph.now.lines) }
{
    graph.known();
    let mut rows = own_rows(alloc, graph)?;
    for line in graph.lines() {
        lead(&mut rows, line.tail, line.head);
    }
    Ok(rows)
}

/// For each node itself.
fn own_rows(alloc: Global, graph: &Graph) -> Result<Sides, NoMemory>
    ensures { IfOk result (AreRows graph.now []) }
{
    graph.known();
    let n = graph.node_count();
    let mut rows = Sides::new(alloc);
    for v in 0..n as u32 {
        let mut row = Side::empty(alloc, n)?;
        row.hold_only(v);
        rows.push(row)?;
    }
    Ok(rows)
}

/// Puts node `w` into the row of `v`.
fn lead(rows: &mut Sides, v: u32, w: u32)
    requires square { AreSquare (length rows.old) rows.old }
    requires v_in { v < length rows.old }
    requires w_in { w < length rows.old }
    ensures { LeadsTo v w rows.old rows.new }
{
    rows.item_mut(v as usize).put(w, true);
}

/// Joins the row of node `k` to each row that has it.
fn lead_on(rows: &mut Sides, k: u32)
    requires square { AreSquare (length rows.old) rows.old }
    requires k_in { k < length rows.old }
    ensures { LeadsOn k rows.old rows.new }
{
    for v in 0..rows.len() {
        join_row(rows, v, k);
    }
}

/// Joins the row of node `k` to that of `v`, if that has `k`.
fn join_row(rows: &mut Sides, v: usize, k: u32)
    requires square { AreSquare (length rows.old) rows.old }
    requires v_in { v < length rows.old }
    requires k_in { k < length rows.old }
    ensures square { AreSquare (length rows.old) rows.new }
    ensures here { (w : ℕ) → leads rows.new v w ≡ leads_by k rows.old v w }
    ensures others { (u w : ℕ) → u ≢ v → leads rows.new u w ≡ leads rows.old u w }
{
    if v == k as usize || !rows.item(v).has(k) {
        return;
    }
    rows.join_items(v, k as usize);
}
