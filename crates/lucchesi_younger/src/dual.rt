ghost use Rattle.std.specs.Prelude.{◌≡◌, ◌⊎◌, ◌++◌, ℕ, ◌<◌, ◌≤◌, length, IfOk, OnOk};
ghost use Rattle.lucchesi_younger.specs.Kept.{at, AllKept, IsBuilt, level};
ghost use Rattle.dicut_lattice.specs.Level.{ArePieces};
ghost use Rattle.graph_core.specs.Limits.{node_room};

use crate::work::Work;
use dicut_lattice::Tight;
use graph_core::{Counts, Graph, NoMemory, Side, Sides};
use std::alloc::Global;

/// The greatest of some counts, or 0 if there is none.
fn greatest(counts: &Counts) -> u64
    ensures most { (v : ℕ) → at counts.now v ≤ result }
    ensures reached { (v : ℕ) × (at counts.now v ≡ result) }
{
    let mut most = 0;
    let items = counts.as_slice();
    'counts: for count in items {
        if most < *count {
            most = *count;
        }
    }
    most
}

/// The nodes of at least this potential.
fn level_of(alloc: Global, potential: &Counts, least: u64) -> Result<Side, NoMemory>
    requires { length potential.now ≤ node_room }
    ensures { IfOk result (λ side. side ≡ level potential.now least) }
{
    let mut side = Side::empty(alloc, potential.len())?;
    'nodes: for v in 0..potential.len() {
        side.put(v as u32, least <= *potential.item(v));
    }
    Ok(side)
}

/// The least count above another, or the greatest.
fn next_above(counts: &Counts, below: u64, most: u64) -> u64
    requires { below < most }
    ensures more { below < result }
    ensures least { (v : ℕ) → below < at counts.now v → result ≤ at counts.now v }
    ensures reached { (result ≡ most) ⊎ ((v : ℕ) × (at counts.now v ≡ result)) }
{
    let mut least = most;
    let items = counts.as_slice();
    'counts: for count in items {
        if below < *count && *count < least {
            least = *count;
        }
    }
    least
}

/// Puts copies of more sides at the end.
fn append(alloc: Global, sides: &mut Sides, more: &Sides) -> Result<(), NoMemory>
    ensures { OnOk result (sides.new ≡ sides.old ++ more.now) }
{
    let items = more.as_slice();
    'more: for side in items {
        sides.push(side.copy(alloc)?)?;
    }
    Ok(())
}

/// The pieces of the level of a potential. One that isn't proper has none.
fn pieces_at(
    alloc: Global,
    graph: &Graph,
    work: &Work,
    tight: &mut Tight,
    least: u64,
) -> Result<Sides, NoMemory>
    requires kept { AllKept graph.now work.now }
    requires tight { tight.old ≡ record { graph = graph.now; join = work.now.join } }
    requires some { 1 ≤ least }
    ensures tight { OnOk result (tight.new ≡ tight.old) }
    ensures pieces { IfOk result (ArePieces graph.now work.now.join (level work.now.potential least)) }
{
    graph.known();
    let level = level_of(alloc, &work.potential, least)?;
    if !level.is_proper() {
        return Ok(Sides::new(alloc));
    }
    let pieces = tight.pieces_of_level(alloc, &level)?;
    Ok(pieces)
}

/// Appends the pieces of the levels above one potential up to the next one, which are all the same.
fn add_levels(
    alloc: Global,
    graph: &Graph,
    work: &Work,
    tight: &mut Tight,
    sides: &mut Sides,
    below: u64,
    next: u64,
) -> Result<(), NoMemory>
    requires kept { AllKept graph.now work.now }
    requires tight { tight.old ≡ record { graph = graph.now; join = work.now.join } }
    requires more { below < next }
    requires none { (v : ℕ) → below < at work.now.potential v → next ≤ at work.now.potential v }
    requires built { IsBuilt graph.now work.now below sides.old }
    ensures tight { OnOk result (tight.new ≡ tight.old) }
    ensures built { OnOk result (IsBuilt graph.now work.now next sides.new) }
{
    graph.known();
    let pieces = pieces_at(alloc, graph, work, tight, below + 1)?;
    'levels: for at in below..next {
        append(alloc, sides, &pieces)?;
    }
    Ok(())
}

/// The pieces of all levels.
pub(crate) fn all_pieces(alloc: Global, graph: &Graph, work: &Work) -> Result<Sides, NoMemory>
    requires kept { AllKept graph.now work.now }
    ensures { IfOk result (λ sides. (i : ℕ) × ((v : ℕ) → at work.now.potential v ≤ i) × IsBuilt graph.now work.now i sides) }
{
    graph.known();
    let mut tight = Tight::new(alloc, graph, &work.join)?;
    let mut sides = Sides::new(alloc);
    let most = greatest(&work.potential);
    let mut below = 0;
    'levels: while below < most {
        let next = next_above(&work.potential, below, most);
        add_levels(alloc, graph, work, &mut tight, &mut sides, below, next)?;
        below = next;
    }
    Ok(sides)
}
