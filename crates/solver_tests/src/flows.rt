//! Least cuts of small networks, and a large one.

ghost use Rattle.std.specs.Prelude.{◌≡◌, ◌<◌, ◌≤◌, All, IfOk, IsTrue, length};
ghost use Rattle.graph_core.specs.Limits.{side_room};

use crate::asserts::same;
use flow_cuts::{Cap, Flow, sparse_side};
use graph_core::{NoMemory, Side};
use std::alloc::{AllocError, Global};
use std::process::Abort;
use std::test::Fail;

fn arc(tail: u32, head: u32, cap: u32) -> Cap {
    Cap { tail, head, cap }
}

// Whether all ends are below n.
fn fit(n: usize, arcs: &[Cap]) -> bool
    ensures { IsTrue result → All (λ arc. (arc.tail < n) × (arc.head < n)) arcs.now }
{
    arcs.iter()
        .all(|arc| (arc.tail as usize) < n && (arc.head as usize) < n)
}

pub fn side_of(alloc: Global, n: usize, nodes: &[u32]) -> Result<Side, NoMemory>
    requires { n ≤ side_room }
    ensures { IfOk result (λ side. length side ≡ n) }
{
    let mut side = Side::empty(alloc, n)?;
    for v in 0..n as u32 {
        side.put(v, nodes.contains(&v));
    }
    Ok(side)
}

pub fn is_side_of(side: &Side, nodes: &[u32]) -> bool
    requires { length side.now ≤ side_room }
{
    for v in 0..side.len() as u32 {
        if side.has(v) != nodes.contains(&v) {
            return false;
        }
    }
    true
}

// A run over a network, its answer, and the smallest and the largest least cut where it falls short.
#[derive(Clone, Copy)]
struct Run<'a> {
    inside: &'a [u32],
    outside: &'a [u32],
    stop: u64,
    answer: u64,
    near: &'a [u32],
    far: &'a [u32],
}

// Runs the other way round first, of which nothing stays.
fn runs(rt: &impl Abort, flow: &mut Flow, inside: &mut Side, outside: &Side, run: &Run<'_>)
    requires inside { length inside.old ≡ flow.old.nodes }
    requires outside { length outside.now ≡ flow.old.nodes }
    requires nodes { flow.old.nodes ≤ side_room }
{
    flow.run(outside, inside, run.stop);
    let answer = flow.run(inside, outside, run.stop);
    same(rt, &answer, &run.answer, &run.stop);
    if answer < run.stop {
        flow.side(inside);
        same(rt, &is_side_of(inside, run.near), &true, &answer);
        flow.wide_side(inside);
        same(rt, &is_side_of(inside, run.far), &true, &answer);
    }
}

fn shows(
    rt: &impl Abort,
    alloc: Global,
    n: usize,
    arcs: &[Cap],
    run: &Run<'_>,
) -> Result<(), NoMemory> {
    assert!(rt; n <= 8192 && arcs.len() <= 262144 && fit(n, arcs));
    let mut inside = side_of(alloc, n, run.inside)?;
    let outside = side_of(alloc, n, run.outside)?;
    let mut flow = Flow::of_arcs(alloc, n, arcs)?;
    runs(rt, &mut flow, &mut inside, &outside, run);
    Ok(())
}

fn row<'a>(
    inside: &'a [u32],
    outside: &'a [u32],
    stop: u64,
    answer: u64,
    near: &'a [u32],
    far: &'a [u32],
) -> Run<'a> {
    Run {
        inside,
        outside,
        stop,
        answer,
        near,
        far,
    }
}

#[test]
fn runs_answer_least_cuts_of_small_networks(rt: HostRuntime) -> Result<(), Fail> {
    let square = [
        arc(0, 1, 3),
        arc(0, 2, 2),
        arc(1, 2, 1),
        arc(1, 3, 2),
        arc(2, 3, 4),
    ];
    // From 0 to 3 the sides let out: {0} 5, {0, 1} 5, {0, 2} 7, {0, 1, 2} 6.
    let runs = [
        row(&[0], &[3], u64::MAX, 5, &[0], &[0, 1]),
        row(&[0], &[3], 6, 5, &[0], &[0, 1]),
        row(&[0], &[3], 5, 5, &[], &[]),
        row(&[0], &[3], 4, 4, &[], &[]),
        row(&[0], &[3], 0, 0, &[], &[]),
        row(&[0, 1], &[3], 9, 5, &[0, 1], &[0, 1]),
        row(&[0, 2], &[3], 9, 6, &[0, 1, 2], &[0, 1, 2]),
        row(&[0], &[2, 3], 9, 5, &[0], &[0, 1]),
        row(&[3], &[0], 9, 0, &[3], &[1, 2, 3]),
        row(&[], &[3], 9, 0, &[], &[]),
        // No side holds a node and misses it.
        row(&[0], &[0], 9, 9, &[], &[]),
    ];
    for run in &runs {
        shows(&rt, rt.alloc(), 4, &square, run)?;
    }
    // Sums past 32 bits, arcs in opposite directions, and one that leaves no side.
    let wide = [
        arc(0, 1, u32::MAX),
        arc(0, 1, u32::MAX),
        arc(1, 0, 5),
        arc(1, 1, 7),
    ];
    let there = row(&[0], &[1], u64::MAX, 8_589_934_590, &[0], &[0]);
    shows(&rt, rt.alloc(), 2, &wide, &there)?;
    let back = row(&[1], &[0], u64::MAX, 5, &[1], &[1]);
    shows(&rt, rt.alloc(), 2, &wide, &back)?;
    Ok(())
}

/// Asserts which side of a network less than `least` leaves, if any.
fn shows_sparse(
    rt: &impl Abort,
    alloc: Global,
    arcs: &[Cap],
    least: u64,
    nodes: Option<&[u32]>,
) -> Result<(), NoMemory> {
    assert!(rt; arcs.len() <= 262144 && fit(2, arcs));
    match (sparse_side(alloc, 2, arcs, least)?, nodes) {
        (Some(side), Some(nodes)) => {
            assert!(rt; side.len() == 2);
            same(rt, &is_side_of(&side, nodes), &true, &least);
        }
        (None, None) => {}
        (found, _) => same(rt, &found.is_some(), &nodes.is_some(), &least),
    }
    Ok(())
}

#[test]
fn a_side_that_too_little_leaves_is_found(rt: HostRuntime) -> Result<(), Fail> {
    let arcs = [arc(0, 1, 3), arc(1, 0, 2)];
    shows_sparse(&rt, rt.alloc(), &arcs, 2, None)?;
    shows_sparse(&rt, rt.alloc(), &arcs, 3, Some(&[1]))?;
    Ok(())
}

// A network on which a search for each unit would look at each of its arcs many times.
fn large(alloc: Global) -> Result<Vec<Cap>, AllocError> {
    let mut arcs = Vec::with_capacity(alloc, 241962)?;
    arcs.push(arc(0, 2, 1))?;
    for tail in 2..363 {
        for head in 2..363 {
            if tail != head {
                arcs.push(arc(tail, head, 1))?;
            }
        }
    }
    for i in 0..3500 {
        arcs.push(arc(0, 400 + i, 30))?;
        arcs.push(arc(3900 + i, 1, 30))?;
        for j in 0..30 {
            arcs.push(arc(400 + i, 3900 + (i + j) % 3500, 1))?;
        }
    }
    arcs.push(arc(0, 3, 1))?;
    Ok(arcs)
}

#[test]
fn a_run_over_a_large_network_ends_in_time(rt: HostRuntime) -> Result<(), Fail> {
    let arcs = large(rt.alloc())?;
    same(&rt, &arcs.len(), &241962, &"arcs");
    // All but the arcs into 1 are open backward, and from 0 one comes no further than the nodes next to 2.
    let mut near = Vec::from_slice(rt.alloc(), &[0])?;
    for v in 2..363 {
        near.push(v)?;
    }
    let mut far = Vec::from_slice(rt.alloc(), &[0])?;
    for v in 2..8192 {
        far.push(v)?;
    }
    let run = row(&[0], &[1], 105001, 105000, &near, &far);
    shows(&rt, rt.alloc(), 8192, &arcs, &run)?;
    Ok(())
}
