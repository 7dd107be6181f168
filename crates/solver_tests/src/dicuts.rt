//! Closed and tight sides of small digraphs, by hand, and what the pieces of a level are to have.

ghost use Rattle.std.specs.Prelude.{ℕ, ◌≡◌, ◌≢◌, ◌<◌, ◌≤◌, true, false, length, All, IfOk};
ghost use Rattle.std.specs.Bool.{OnTrue};
ghost use Rattle.graph_core.specs.Side.{has};
ghost use Rattle.problem_defs.specs.Dijoin.{IsClosed, IsFeasible};
ghost use Rattle.dicut_lattice.specs.Level.{IsLevel};
ghost use Rattle.dicut_lattice.specs.Tight.{AreSeparated};

use crate::asserts::same;
use crate::sides::{holds, number_of, side_with};
use dicut_lattice::{Kernels, Tight, blocked, exchange, is_closed, is_dijoin};
use graph_core::{Graph, NoMemory, Numbers, Pairs, Side};
use std::alloc::Global;
use std::process::Abort;
use std::test::Fail;
use test_graphs::{ARC, OUT_STAR, TWO_ALONE, graph_of};

/// The arcs ab and cb.
pub const INTO_ONE: &[u8] = b"graph directed\nnode a\nnode b\nnode c\narc a b\narc c b\nend\n";

/// The same, with the second one fixed.
pub const ONE_FIXED: &[u8] =
    b"graph directed\nnode a\nnode b\nnode c\narc a b\narc c b fixed\nend\n";

/// Arcs from a, b and c to d.
const IN_STAR: &[u8] =
    b"graph directed\nnode a\nnode b\nnode c\nnode d\narc a d\narc b d\narc c d\nend\n";

pub const RING: &[u8] = b"graph directed\nnode a\nnode b\nnode c\narc a b\narc b c\narc c a\nend\n";

// A digraph, a side by its nodes, and whether it is closed.
const CLOSED: [(&str, &[u8], u32, bool); 6] = [
    ("the node that arcs enter", INTO_ONE, 0b010, true),
    ("with one of the others", INTO_ONE, 0b011, true),
    ("a node that an arc leaves", INTO_ONE, 0b001, false),
    ("each node", INTO_ONE, 0b111, false),
    ("no node", INTO_ONE, 0b000, false),
    ("a part of a ring", RING, 0b011, false),
];

#[test]
fn sides_that_no_arc_leaves_are_closed(rt: HostRuntime) -> Result<(), Fail> {
    for (what, text, number, closed) in &CLOSED {
        let graph = graph_of(rt.alloc(), text)?;
        let side = side_with(&rt, rt.alloc(), &graph, *number)?;
        same(&rt, &is_closed(&graph, &side), closed, what);
    }
    Ok(())
}

// A digraph, and the only side that can be found, if there is one.
const BLOCKED: [(&str, &[u8], Option<u32>); 5] = [
    ("no arc is fixed", INTO_ONE, None),
    ("one is fixed", ONE_FIXED, Some(0b011)),
    ("a ring", RING, None),
    ("one arc", ARC, None),
    ("node a is looked for first", TWO_ALONE, Some(0b01)),
];

#[test]
fn fixed_arcs_alone_enter_a_side(rt: HostRuntime) -> Result<(), Fail> {
    for (what, text, wanted) in &BLOCKED {
        let graph = graph_of(rt.alloc(), text)?;
        let found = match blocked(rt.alloc(), &graph)? {
            Some(side) => Some(number_of(&side)),
            None => None,
        };
        same(&rt, &found, wanted, what);
    }
    Ok(())
}

/// The numbers of arcs, each of which is there.
fn join_of(rt: &impl Abort, alloc: Global, graph: &Graph, numbers: &[u32]) -> Result<Numbers, Fail>
    ensures { IfOk result (All (λ j. j < length graph.now.lines)) }
{
    let m = graph.line_count();
    let there = numbers.iter().all(|j| (*j as usize) < m);
    assert!(rt; there);
    Ok(Numbers::from_vec(Vec::from_slice(alloc, numbers)?))
}

// A digraph, numbers of arcs, and whether they are a dijoin without fixed arcs.
const JOINS: [(&str, &[u8], &[u32], bool); 6] = [
    ("both arcs", INTO_ONE, &[1, 0], true),
    ("one arc", INTO_ONE, &[1], false),
    ("one arc twice", INTO_ONE, &[1, 1, 0], false),
    ("a fixed arc", ONE_FIXED, &[0, 1], false),
    ("no arc of a ring", RING, &[], true),
    ("no arc", ARC, &[], false),
];

#[test]
fn dijoins_enter_each_closed_side(rt: HostRuntime) -> Result<(), Fail> {
    for (what, text, numbers, is) in &JOINS {
        let graph = graph_of(rt.alloc(), text)?;
        let join = join_of(&rt, rt.alloc(), &graph, numbers)?;
        same(&rt, &is_dijoin(rt.alloc(), &graph, &join)?, is, what);
    }
    Ok(())
}

/// The same numbers, where they are a dijoin.
fn dijoin_of(
    rt: &impl Abort,
    alloc: Global,
    graph: &Graph,
    numbers: &[u32],
) -> Result<Numbers, Fail>
    ensures { IfOk result (λ join. IsFeasible graph.now join) }
{
    let join = join_of(rt, alloc, graph, numbers)?;
    assert!(rt; is_dijoin(alloc, graph, &join)?);
    Ok(join)
}

/// The smallest tight side that holds one node and misses another, by its number.
fn tight_side(
    alloc: Global,
    graph: &Graph,
    join: &Numbers,
    holds: u32,
    misses: u32,
) -> Result<Option<u32>, NoMemory>
    requires join { IsFeasible graph.now join.now }
    requires holds { holds < length graph.now.names }
    requires misses { misses < length graph.now.names }
    requires apart { holds ≢ misses }
{
    let mut tight = Tight::new(alloc, graph, join)?;
    let mut side = Side::empty(alloc, graph.node_count())?;
    if tight.tight_set(holds, misses, &mut side) {
        Ok(Some(number_of(&side)))
    } else {
        Ok(None)
    }
}

// A node that is held and one that is missed, and the smallest tight side of arcs ab and cb.
const TIGHT: [(u32, u32, Option<u32>); 4] = [
    (1, 0, Some(0b110)),
    (1, 2, Some(0b011)),
    (2, 0, Some(0b110)),
    (0, 1, None),
];

fn are_found(rt: &impl Abort, alloc: Global, rows: &[(u32, u32, Option<u32>)]) -> Result<(), Fail> {
    let graph = graph_of(alloc, INTO_ONE)?;
    let join = dijoin_of(rt, alloc, &graph, &[0, 1])?;
    assert!(rt; graph.node_count() == 3);
    for (holds, misses, wanted) in rows {
        let (holds, misses) = (*holds, *misses);
        assert!(rt; holds < 3 && misses < 3 && holds != misses);
        let found = tight_side(alloc, &graph, &join, holds, misses)?;
        same(rt, &found, wanted, &(holds, misses));
    }
    Ok(())
}

#[test]
fn smallest_tight_sides_are_found(rt: HostRuntime) -> Result<(), Fail> {
    are_found(&rt, rt.alloc(), &TIGHT)
}

/// Whether x is in the level, or a tight side holds y and misses x.
fn is_apart(tight: &mut Tight, level: &Side, y: u32, x: u32, found: &mut Side) -> bool
    requires inside { has level.now y ≡ true }
    requires y { y < length tight.old.graph.names }
    requires x { x < length tight.old.graph.names }
    requires level { length level.now ≡ length tight.old.graph.names }
    requires found { length found.old ≡ length tight.old.graph.names }
    ensures same { tight.new ≡ tight.old }
    ensures found { length found.new ≡ length found.old }
    ensures apart { OnTrue result (has level.now x ≡ false → AreSeparated tight.old.graph tight.old.join y x) }
{
    level.has(x) || tight.tight_set(y, x, found)
}

/// Whether a tight side holds y and misses x, for each x outside the level.
fn is_parted(tight: &mut Tight, level: &Side, y: u32, found: &mut Side) -> bool
    requires inside { has level.now y ≡ true }
    requires y { y < length tight.old.graph.names }
    requires level { length level.now ≡ length tight.old.graph.names }
    requires found { length found.old ≡ length tight.old.graph.names }
    requires small { length level.now ≤ 12 }
    ensures same { tight.new ≡ tight.old }
    ensures found { length found.new ≡ length found.old }
    ensures parted { OnTrue result ((x : ℕ) → x < length tight.old.graph.names → has level.now x ≡ false → AreSeparated tight.old.graph tight.old.join y x) }
{
    for x in 0..level.len() as u32 {
        if !is_apart(tight, level, y, x, found) {
            return false;
        }
    }
    true
}

/// Whether y is outside the level, or a tight side parts it from each node outside.
fn is_kept(tight: &mut Tight, level: &Side, y: u32, found: &mut Side) -> bool
    requires y { y < length tight.old.graph.names }
    requires level { length level.now ≡ length tight.old.graph.names }
    requires found { length found.old ≡ length tight.old.graph.names }
    requires small { length level.now ≤ 12 }
    ensures same { tight.new ≡ tight.old }
    ensures found { length found.new ≡ length found.old }
    ensures kept { OnTrue result ((x : ℕ) → has level.now y ≡ true → x < length tight.old.graph.names → has level.now x ≡ false → AreSeparated tight.old.graph tight.old.join y x) }
{
    !level.has(y) || is_parted(tight, level, y, found)
}

/// Whether a tight side holds y and misses x, for each y in the closed side and each x outside.
fn is_level(tight: &mut Tight, level: &Side, found: &mut Side) -> bool
    requires closed { IsClosed tight.old.graph level.now }
    requires found { length found.old ≡ length tight.old.graph.names }
    requires small { length level.now ≤ 12 }
    ensures same { tight.new ≡ tight.old }
    ensures level { OnTrue result (IsLevel tight.old.graph tight.old.join level.now) }
{
    for y in 0..level.len() as u32 {
        if !is_kept(tight, level, y, found) {
            return false;
        }
    }
    true
}

/// The pieces of a level by their numbers.
fn numbers_of_pieces(alloc: Global, tight: &mut Tight, level: &Side) -> Result<Vec<u32>, NoMemory>
    requires { IsLevel tight.old.graph tight.old.join level.now }
{
    let pieces = tight.pieces_of_level(alloc, level)?;
    let mut numbers = Vec::new(alloc);
    for side in pieces.as_slice() {
        numbers.push(number_of(side))?;
    }
    Ok(numbers)
}

/// The pieces of a closed side, which is a level. No jump changes nothing of the dijoin.
fn pieces_of(
    rt: &impl Abort,
    alloc: Global,
    graph: &Graph,
    join: &Numbers,
    level: &Side,
) -> Result<Vec<u32>, NoMemory>
    requires join { IsFeasible graph.now join.now }
    requires closed { IsClosed graph.now level.now }
    requires small { length level.now ≤ 12 }
{
    let mut tight = Tight::new(alloc, graph, join)?;
    let mut found = Side::empty(alloc, graph.node_count())?;
    exchange(&tight, &Pairs::new(alloc));
    assert!(rt; is_level(&mut tight, level, &mut found));
    numbers_of_pieces(alloc, &mut tight, level)
}

/// How many of the sides hold one node and miss another.
fn between(sides: &[u32], holds_it: u32, misses_it: u32) -> usize {
    sides
        .iter()
        .filter(|side| holds(**side, holds_it) && !holds(**side, misses_it))
        .count()
}

// A digraph, a dijoin, a level by its number, and how many pieces it has.
type LevelRow<'a> = (&'a str, &'a [u8], &'a [u32], u32, usize);

const LEVELS: [LevelRow<'static>; 5] = [
    ("one arc", ARC, &[0], 0b10, 1),
    ("two arcs into a node", INTO_ONE, &[0, 1], 0b010, 2),
    ("three arcs into a node", IN_STAR, &[0, 1, 2], 0b1000, 3),
    ("arcs out of a node", OUT_STAR, &[0, 1], 0b110, 2),
    ("a tight side", INTO_ONE, &[1, 0], 0b011, 1),
];

/// Asserts that an arc enters one piece where it enters the level, and that a piece parts what the level parts.
fn are_pieces(rt: &impl Abort, graph: &Graph, pieces: &[u32], level: u32, what: &str) {
    for line in graph.lines() {
        let found = between(pieces, line.head, line.tail);
        let wanted = between(&[level], line.head, line.tail);
        same(rt, &found, &wanted, &what);
    }
    for y in 0..4 {
        for x in 0..4 {
            let parts = between(&[level], y, x) == 0 || between(pieces, y, x) > 0;
            same(rt, &parts, &true, &what);
        }
    }
}

fn has_pieces(rt: &impl Abort, alloc: Global, row: &LevelRow<'_>) -> Result<(), Fail> {
    let (what, text, numbers, number, count) = *row;
    let graph = graph_of(alloc, text)?;
    let join = dijoin_of(rt, alloc, &graph, numbers)?;
    let level = side_with(rt, alloc, &graph, number)?;
    assert!(rt; level.len() <= 12 && is_closed(&graph, &level));
    let pieces = pieces_of(rt, alloc, &graph, &join, &level)?;
    same(rt, &pieces.len(), &count, &what);
    are_pieces(rt, &graph, &pieces, number, what);
    Ok(())
}

#[test]
fn arcs_enter_one_piece_of_a_level(rt: HostRuntime) -> Result<(), Fail> {
    for row in &LEVELS {
        has_pieces(&rt, rt.alloc(), row)?;
    }
    Ok(())
}

/// The arcs ab and bc.
const WAY: &[u8] = b"graph directed\nnode a\nnode b\nnode c\narc a b\narc b c\nend\n";

/// The arcs ab, ac, bd and cd.
const DIAMOND: &[u8] =
    b"graph directed\nnode a\nnode b\nnode c\nnode d\narc a b\narc a c\narc b d\narc c d\nend\n";

// A digraph, a dijoin, and what all tight sides with each node have in common.
type KernelRow<'a> = (&'a str, &'a [u8], &'a [u32], &'a [u32]);

const KERNELS: [KernelRow<'static>; 6] = [
    // The tight sides are {a, b} and {b, c}; {b} is entered twice.
    ("into a node", INTO_ONE, &[0, 1], &[0b011, 0b010, 0b110]),
    // They are {b} and {c}, and none has a.
    ("out of a node", OUT_STAR, &[1, 0], &[0b111, 0b010, 0b100]),
    ("no closed side", RING, &[], &[0b111, 0b111, 0b111]),
    // They are {c} and {b, c}.
    ("a way", WAY, &[0, 1], &[0b111, 0b110, 0b100]),
    // Arcs ab and bd enter each closed side once: {d}, {b, d}, {c, d} and {b, c, d}.
    (
        "a diamond",
        DIAMOND,
        &[0, 2],
        &[0b1111, 0b1010, 0b1100, 0b1000],
    ),
    // With cd they enter {d} and {b, d} twice.
    (
        "one more arc",
        DIAMOND,
        &[0, 2, 3],
        &[0b1111, 0b1110, 0b1100, 0b1100],
    ),
];

/// What all tight sides with the node have in common, by its number.
fn kernel_of(
    rt: &impl Abort,
    alloc: Global,
    graph: &Graph,
    join: &Numbers,
    v: u32,
) -> Result<u32, Fail>
    requires join { IsFeasible graph.now join.now }
    requires node { v < length graph.now.names }
{
    let mut side = side_with(rt, alloc, graph, 0)?;
    let mut kernels = Kernels::new(alloc, graph, join)?;
    kernels.kernel(v, &mut side);
    Ok(number_of(&side))
}

fn has_kernels(rt: &impl Abort, alloc: Global, row: &KernelRow<'_>) -> Result<(), Fail> {
    let (what, text, numbers, wanted) = *row;
    let graph = graph_of(alloc, text)?;
    let join = dijoin_of(rt, alloc, &graph, numbers)?;
    let mut v: u32 = 0;
    for number in wanted {
        assert!(rt; (v as usize) < graph.node_count());
        let found = kernel_of(rt, alloc, &graph, &join, v)?;
        same(rt, &found, number, &(what, v));
        v = v.wrapping_add(1);
    }
    Ok(())
}

#[test]
fn kernels_are_common_to_tight_sides(rt: HostRuntime) -> Result<(), Fail> {
    for row in &KERNELS {
        has_kernels(&rt, rt.alloc(), row)?;
    }
    Ok(())
}
