//! Packings on three nodes, looked over by a plain program.

ghost use Rattle.std.specs.Prelude.{◌≡◌, ◌<◌, ◌≤◌, ◌+◌, ◌^◌, [], ◌∷◌, true, All, IfOk, IsTrue, length, slice_index};
ghost use Rattle.graph_core.specs.Graph.{IsWithinSize};
ghost use Rattle.graph_core.specs.Lines.{entering};
ghost use Rattle.graph_core.specs.Side.{sum_over};
ghost use Rattle.edmonds_branchings.specs.Rooted.{CanBePacked};

use crate::asserts::same;
use edmonds_branchings::{pack_arborescences, pack_rooted};
use graph_core::{Counts, Graph, Kind, Line, NoMemory, NumberRows, Numbers, Side};
use std::alloc::Global;
use std::process::Abort;
use std::test::Fail;
use test_graphs::{COMPLETE, graph_of};

const PATH: &[u8] = b"graph directed\nnode a\nnode b\nnode c\narc a b\narc b c\nend\n";

const NO_ARC: &[u8] = b"graph directed\nnode a\nnode b\nnode c\nend\n";

const TWO_ROOTS: &[u8] = b"graph directed\nnode a\nnode b\nnode c\narc a c\narc b c\nend\n";

const TWICE: &[u8] =
    b"graph directed\nnode a\nnode b\nnode c\narc a b\narc a b\narc b c\narc b c\nend\n";

const UNREACHED: &[u8] = b"graph directed\nnode a\nnode b\nnode c\narc a b\narc c b\nend\n";

const THRICE: &[u8] =
    b"graph directed\nnode a\nnode b\nnode c\narc a b\narc a b\narc a b\narc b c\narc b c\nend\n";

/// A side of three nodes.
pub fn side(alloc: Global, a: bool, b: bool, c: bool) -> Result<Side, NoMemory>
    ensures { IfOk result (λ side. side ≡ a ∷ b ∷ c ∷ []) }
{
    let mut side = Side::empty(alloc, 3)?;
    side.put(0, a);
    side.put(1, b);
    side.put(2, c);
    Ok(side)
}

/// Whether enough arcs enter a side, and enough branchings may begin in it.
fn is_entered(graph: &Graph, roots: &Counts, k: u32, side: &Side) -> bool
    requires nodes { length graph.now.names ≡ 3 }
    requires side { length side.now ≡ 3 }
    requires long { length roots.now ≡ 3 }
    requires few { All (λ count. count ≤ k) roots.now }
    ensures { result ≡ true → k ≤ entering side.now graph.now.lines + sum_over side.now (slice_index roots.now) }
{
    let mut sum: u64 = 0;
    for v in 0..3 {
        sum += if side.has(v) {
            *roots.item(v as usize)
        } else {
            0
        };
    }
    graph.entering(side) + sum >= k as u64
}

/// The same of the side of these marks.
fn are_entered(
    alloc: Global,
    graph: &Graph,
    roots: &Counts,
    k: u32,
    a: bool,
    b: bool,
    c: bool,
) -> bool
    requires nodes { length graph.now.names ≡ 3 }
    requires long { length roots.now ≡ 3 }
    requires few { All (λ count. count ≤ k) roots.now }
    ensures { result ≡ true → k ≤ entering (a ∷ b ∷ c ∷ []) graph.now.lines + sum_over (a ∷ b ∷ c ∷ []) (slice_index roots.now) }
{
    match side(alloc, a, b, c) {
        Ok(side) => is_entered(graph, roots, k, &side),
        Err(_) => false,
    }
}

/// Edmonds' condition, looked up at each nonempty side.
fn can_be_packed(alloc: Global, graph: &Graph, roots: &Counts, k: u32) -> bool
    requires nodes { length graph.now.names ≡ 3 }
    requires long { length roots.now ≡ 3 }
    requires few { All (λ count. count ≤ k) roots.now }
    ensures { result ≡ true → CanBePacked 3 k graph.now.lines roots.now }
{
    let a = are_entered(alloc, graph, roots, k, true, false, false);
    let b = are_entered(alloc, graph, roots, k, false, true, false);
    let c = are_entered(alloc, graph, roots, k, false, false, true);
    let ab = are_entered(alloc, graph, roots, k, true, true, false);
    let ac = are_entered(alloc, graph, roots, k, true, false, true);
    let bc = are_entered(alloc, graph, roots, k, false, true, true);
    let abc = are_entered(alloc, graph, roots, k, true, true, true);
    a & b & c & ab & ac & bc & abc
}

/// Whether no count is larger than k.
fn are_few(roots: &Counts, k: u32) -> bool
    ensures few { IsTrue result → All (λ count. count ≤ k) roots.now }
    ensures small { IsTrue result → All (λ count. count < 2 ^ 32) roots.now }
{
    roots.as_slice().iter().all(|count| *count <= k as u64)
}

/// Packs branchings of three nodes where Edmonds' condition holds.
fn pack_three(
    rt: &impl Abort,
    alloc: Global,
    graph: &Graph,
    counts: [u64; 3],
    k: u32,
) -> Result<NumberRows, Fail>
    requires { IsWithinSize graph.now }
{
    let roots = Counts::from_vec(Vec::from_array(alloc, counts)?);
    assert!(rt; roots.len() == 3 && graph.node_count() == 3);
    assert!(rt; graph.kind() == Kind::Directed);
    assert!(rt; are_few(&roots, k));
    assert!(rt; can_be_packed(alloc, graph, &roots, k));
    Ok(pack_rooted(alloc, graph, &roots, k)?)
}

/// Whether an arc of the row has this head.
fn has_head(lines: &[Line], row: &Numbers, v: u32) -> bool {
    for j in row.as_slice() {
        if let Some(line) = lines.get(*j as usize) {
            if line.head == v {
                return true;
            }
        }
    }
    false
}

/// How many rows have no arc with this head.
fn begin_at(lines: &[Line], rows: &NumberRows, v: u32) -> u64 {
    let mut count: u64 = 0;
    for row in rows.as_slice() {
        if !has_head(lines, row, v) {
            count = count.wrapping_add(1);
        }
    }
    count
}

/// How often the rows have the arc, and how many arcs they have together.
fn held(rows: &NumberRows, j: u32) -> (usize, usize) {
    let mut often: usize = 0;
    let mut all: usize = 0;
    for row in rows.as_slice() {
        all = all.wrapping_add(row.len());
        if row.as_slice().contains(&j) {
            often = often.wrapping_add(1);
        }
    }
    (often, all)
}

// A digraph, how many branchings may begin at each node, how many there are, and their arcs.
type Rooted<'a> = (&'a str, &'a [u8], [u64; 3], u32, usize);

const ROOTED: [Rooted<'static>; 6] = [
    ("one root", COMPLETE, [2, 0, 0], 2, 4),
    ("each node is a root", COMPLETE, [1, 1, 1], 3, 6),
    ("a path", PATH, [1, 0, 0], 1, 2),
    ("no arc", NO_ARC, [1, 1, 1], 1, 0),
    ("two roots at once", TWO_ROOTS, [1, 1, 0], 1, 1),
    ("parallel arcs", TWICE, [2, 0, 0], 2, 4),
];

fn are_packed(rt: &impl Abort, alloc: Global, rows: &[Rooted<'_>]) -> Result<(), Fail> {
    for (what, text, counts, k, arcs) in rows {
        let graph = graph_of(alloc, text)?;
        let packed = pack_three(rt, alloc, &graph, *counts, *k)?;
        same(rt, &packed.len(), &(*k as usize), what);
        for j in 0..6 {
            let (often, all) = held(&packed, j);
            same(rt, &(often <= 1, all), &(true, *arcs), &(*what, j));
        }
        for v in 0..3u32 {
            let begins = begin_at(graph.lines(), &packed, v);
            same(rt, &(begins <= counts[v as usize]), &true, &(*what, v));
        }
    }
    Ok(())
}

#[test]
fn branchings_begin_at_their_roots(rt: HostRuntime) -> Result<(), Fail> {
    are_packed(&rt, rt.alloc(), &ROOTED)
}

// A digraph, a root, and how many arborescences it has.
const SPANNED: [(&str, &[u8], u32, usize); 5] = [
    ("a complete digraph", COMPLETE, 0, 2),
    ("no arc leads to c", UNREACHED, 0, 0),
    ("a path", PATH, 0, 1),
    ("the root isn't the first node", COMPLETE, 2, 2),
    ("parallel arcs", THRICE, 0, 2),
];

fn are_spanned(
    rt: &impl Abort,
    alloc: Global,
    rows: &[(&str, &[u8], u32, usize)],
) -> Result<(), Fail> {
    for (what, text, root, most) in rows {
        let (root, most) = (*root, *most);
        let graph = graph_of(alloc, text)?;
        assert!(rt; root < 3 && graph.node_count() == 3);
        assert!(rt; graph.kind() == Kind::Directed);
        let found = pack_arborescences(alloc, &graph, root)?;
        assert!(rt; found.dual.len() == 3);
        let values = (
            found.object.len(),
            graph.entering(&found.dual),
            found.dual.has(root),
        );
        same(rt, &values, &(most, most as u64, false), what);
    }
    Ok(())
}

#[test]
fn arborescences_meet_their_dual(rt: HostRuntime) -> Result<(), Fail> {
    are_spanned(&rt, rt.alloc(), &SPANNED)
}
