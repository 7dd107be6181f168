//! Values worked out by hand, on a graph and on a digraph with the same lines.

ghost use Rattle.std.specs.Prelude.{◌≡◌, ◌<◌, [], ◌∷◌, All, IfOk, IsTrue, length};
ghost use Rattle.graph_core.specs.Side.{IsProper};
ghost use Rattle.graph_core.specs.Families.{IsPartition};

use crate::asserts::same;
use graph_core::{Graph, Kind, Line, Name, NoMemory, Numbers, Pairs, Side, Sides};
use std::alloc::Global;
use std::process::Abort;
use std::test::Fail;
use test_graphs::graph_of;

// Lines ab, ab, ba, bc, ac. Two are parallel, one is opposite to both, and d is the end of none.
const GRAPHS: [(Kind, &[u8]); 2] = [
    (
        Kind::Undirected,
        b"graph undirected\nnode a\nnode b\nnode c\nnode d\nedge a b\nedge a b\nedge b a\nedge b c\nedge a c\nend\n",
    ),
    (
        Kind::Directed,
        b"graph directed\nnode a\nnode b\nnode c\nnode d\narc a b\narc a b\narc b a\narc b c\narc a c\nend\n",
    ),
];

#[test]
fn names_have_one_to_thirty_two_letters_digits_or_signs(rt: HostRuntime) -> Result<(), Fail> {
    let words: [(&[u8], bool); 12] = [
        (b"", false),
        (b"a", true),
        (b"Az09_.-", true),
        (b"abcdefghijklmnopqrstuvwxyzABCDEF", true),
        (b"abcdefghijklmnopqrstuvwxyzABCDEFG", false),
        (b"two words", false),
        (b"a/b", false),
        (b"a:b", false),
        (b"@", false),
        (b"x[", false),
        (b"`{", false),
        (b"caf\xc3\xa9", false),
    ];
    for (word, good) in words {
        same(&rt, &Name::is_name(word), &good, &word);
        if Name::is_name(word) {
            let name = Name::make(rt.alloc(), word)?;
            name.known();
            let copy = name.copy(rt.alloc())?;
            let found = (name.bytes(), copy.is(word), copy.is(b"another"));
            same(&rt, &found, &(word, true, false), &word);
        }
    }
    Ok(())
}

fn side(alloc: Global, marks: [bool; 4]) -> Result<Side, NoMemory>
    ensures { IfOk result (λ side. length side ≡ 4) }
{
    let mut side = Side::empty(alloc, 4)?;
    side.put(0, marks[0]);
    side.put(1, marks[1]);
    side.put(2, marks[2]);
    side.put(3, marks[3]);
    Ok(side)
}

/// Asserts that the side has these marks, and what follows from how many they are.
fn shows(rt: &impl Abort, side: &Side, marks: [bool; 4], what: &str) {
    assert!(rt; side.len() == 4);
    let found = [side.has(0), side.has(1), side.has(2), side.has(3)];
    same(rt, &found, &marks, &what);
    let mut count: usize = 0;
    for on in marks {
        count = count.wrapping_add(on as usize);
    }
    let found = (
        side.count(),
        side.is_empty(),
        side.is_proper(),
        side.same(side),
    );
    let want = (count, count == 0, count != 0 && count != 4, true);
    same(rt, &found, &want, &what);
}

/// The two sides as a list.
fn pair(alloc: Global, x: &Side, y: &Side) -> Result<Sides, NoMemory>
    ensures { IfOk result (λ sides. sides ≡ x.now ∷ y.now ∷ []) }
{
    let mut sides = Sides::new(alloc);
    sides.push(x.copy(alloc)?)?;
    sides.push(y.copy(alloc)?)?;
    Ok(sides)
}

#[test]
fn sides_change_as_sets_do(rt: HostRuntime) -> Result<(), Fail> {
    let alloc = rt.alloc();
    let x = side(alloc, [true, true, false, false])?;
    let y = side(alloc, [false, true, true, false])?;
    let mut z = x.copy(alloc)?;
    z.join(&y);
    shows(&rt, &z, [true, true, true, false], "union");
    z.set_to(&x);
    z.meet(&y);
    shows(&rt, &z, [false, true, false, false], "intersection");
    z.set_to(&x);
    z.minus(&y);
    shows(&rt, &z, [true, false, false, false], "difference");
    z.set_to(&x);
    z.complement();
    shows(&rt, &z, [false, false, true, true], "complement");
    z.set_to(&y);
    shows(&rt, &z, [false, true, true, false], "the other");
    z.set_to(&x);
    z.hold_only(2);
    shows(&rt, &z, [false, false, true, false], "the third node alone");
    Ok(())
}

#[test]
fn sides_in_a_list_change_as_sets_do(rt: HostRuntime) -> Result<(), Fail> {
    let alloc = rt.alloc();
    let x = side(alloc, [true, true, false, false])?;
    let y = side(alloc, [false, true, true, false])?;
    let mut both = pair(alloc, &x, &y)?;
    both.join_items(1, 0);
    shows(
        &rt,
        &both.remove(1),
        [true, true, true, false],
        "union in a list",
    );
    let mut both = pair(alloc, &x, &y)?;
    both.minus_items(1, 0);
    shows(
        &rt,
        &both.remove(0),
        [true, false, false, false],
        "first without second",
    );
    shows(
        &rt,
        &both.remove(0),
        [false, false, true, false],
        "second without first",
    );
    Ok(())
}

#[test]
fn numbers_change_in_place(rt: HostRuntime) -> Result<(), Fail> {
    let mut numbers = Numbers::from_vec([7, 8].to_vec(rt.alloc())?);
    if numbers.len() == 2 {
        *numbers.item_mut(1) = 9;
    }
    let want = [7, 9];
    same(&rt, &numbers.as_slice(), &want.as_slice(), &"numbers");
    same(
        &rt,
        &numbers.into_vec().as_slice(),
        &want.as_slice(),
        &"numbers",
    );
    Ok(())
}

/// A proper side and its complement.
fn halves(alloc: Global, side: &Side) -> Result<Sides, NoMemory>
    requires { IsProper (length side.now) side.now }
    ensures { IfOk result (IsPartition (length side.now)) }
{
    let mut classes = Sides::new(alloc);
    classes.push(side.copy(alloc)?)?;
    let mut rest = side.copy(alloc)?;
    rest.complement();
    classes.push(rest)?;
    Ok(classes)
}

/// Asserts d, ρ, δ and i of a side, and that d counts the lines between it and its complement.
fn counts(
    rt: &impl Abort,
    alloc: Global,
    graph: &Graph,
    marks: [bool; 4],
    values: [u64; 4],
) -> Result<(), NoMemory>
    requires { length graph.now.names ≡ 4 }
{
    let x = side(alloc, marks)?;
    let found = [
        graph.degree(&x),
        graph.entering(&x),
        graph.leaving(&x),
        graph.induced(&x),
    ];
    same(rt, &found, &values, &marks);
    if x.is_proper() {
        let classes = halves(alloc, &x)?;
        same(rt, &graph.between(&classes), &found[0], &marks);
    }
    Ok(())
}

#[test]
fn counts_of_a_graph_and_of_a_digraph(rt: HostRuntime) -> Result<(), Fail> {
    let rows: [([bool; 4], [u64; 4]); 8] = [
        ([false, false, false, false], [0, 0, 0, 0]),
        ([true, false, false, false], [4, 1, 3, 0]),
        ([false, true, false, false], [4, 2, 2, 0]),
        ([false, false, true, false], [2, 2, 0, 0]),
        ([false, false, false, true], [0, 0, 0, 0]),
        ([true, true, false, false], [2, 0, 2, 3]),
        ([true, false, true, true], [4, 2, 2, 1]),
        ([true, true, true, true], [0, 0, 0, 5]),
    ];
    for (kind, text) in GRAPHS {
        let graph = graph_of(rt.alloc(), text)?;
        assert!(rt; graph.node_count() == 4);
        same(&rt, &graph.kind(), &kind, &kind);
        for (marks, values) in rows {
            counts(&rt, rt.alloc(), &graph, marks, values)?;
        }
        for (name, node) in [(b"a", Some(0)), (b"d", Some(3)), (b"e", None)] {
            same(&rt, &graph.find(name), &node, name);
        }
    }
    Ok(())
}

fn line(tail: u32, head: u32) -> Line {
    Line {
        tail,
        head,
        fixed: false,
        cost: 1,
    }
}

/// Asserts which lines a graph has that grew by two.
fn has_grown(rt: &impl Abort, graph: &Graph, kind: Kind) {
    assert!(rt; graph.node_count() == 4 && graph.line_count() == 7);
    let lines = [
        line(0, 1),
        line(0, 1),
        line(1, 0),
        line(1, 2),
        line(0, 2),
        line(2, 0),
        line(3, 1),
    ];
    same(rt, &graph.kind(), &kind, &kind);
    same(rt, &graph.lines(), &lines.as_slice(), &kind);
    let last = (graph.line(6), graph.name(3).is(b"d"));
    same(rt, &last, &(line(3, 1), true), &kind);
}

#[test]
fn new_lines_stand_behind_those_of_the_graph(rt: HostRuntime) -> Result<(), Fail> {
    let mut more = Pairs::new(rt.alloc());
    more.push((2, 0))?;
    more.push((3, 1))?;
    for (kind, text) in GRAPHS {
        let graph = graph_of(rt.alloc(), text)?;
        assert!(rt; graph.node_count() == 4 && graph.line_count() == 5);
        has_grown(&rt, &graph.plus(rt.alloc(), &more)?, kind);
    }
    Ok(())
}

/// Whether each number is that of a line.
fn are_lines(graph: &Graph, row: &[u32]) -> bool
    ensures { IsTrue result → All (λ j. j < length graph.now.lines) row.now }
{
    row.iter().all(|j| (*j as usize) < graph.line_count())
}

#[test]
fn a_copy_has_the_same_lines_and_the_same_forests(rt: HostRuntime) -> Result<(), Fail> {
    let rows: [(&[u32], bool); 6] = [
        (&[], true),
        (&[0, 3], true),
        (&[4, 0], true),
        (&[0, 1], false),
        (&[3, 3], false),
        (&[0, 3, 4], false),
    ];
    for (kind, text) in GRAPHS {
        let graph = graph_of(rt.alloc(), text)?;
        let copy = graph.copy(rt.alloc())?;
        same(&rt, &copy.kind(), &kind, &kind);
        same(&rt, &copy.node_count(), &graph.node_count(), &kind);
        same(&rt, &copy.lines(), &graph.lines(), &kind);
        for (row, forest) in rows {
            assert!(rt; are_lines(&copy, row));
            same(&rt, &copy.is_forest(rt.alloc(), row)?, &forest, &row);
        }
    }
    Ok(())
}
