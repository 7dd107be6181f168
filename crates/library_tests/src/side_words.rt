//! Sides and lists of truth values in words of 64 bits, at the ends of words.

ghost use Rattle.std.specs.Prelude.{◌≤◌};

use crate::asserts::same;
use graph_core::{NoMemory, Side};
use std::alloc::Global;
use std::test::Fail;
use word_sides::Words;

// So many nodes, of which those are in a side whose numbers three divides. How many it has, and how
// many its complement; the number of the last word, and this word of the side and of its complement.
const SIDES: [(usize, [usize; 2], usize, [u64; 2]); 5] = [
    (1, [1, 0], 0, [0x1, 0x0]),
    (
        63,
        [21, 42],
        0,
        [0x1249_2492_4924_9249, 0x6db6_db6d_b6db_6db6],
    ),
    (
        64,
        [22, 42],
        0,
        [0x9249_2492_4924_9249, 0x6db6_db6d_b6db_6db6],
    ),
    (65, [22, 43], 1, [0x0, 0x1]),
    (
        128,
        [43, 85],
        1,
        [0x4924_9249_2492_4924, 0xb6db_6db6_db6d_b6db],
    ),
];

fn thirds(alloc: Global, n: usize) -> Result<Side, NoMemory>
    requires { n ≤ 128 }
{
    let mut side = Side::empty(alloc, n)?;
    for v in 0..n as u32 {
        if (v as usize) < side.len() {
            side.put(v, v % 3 == 0);
        }
    }
    Ok(side)
}

/// Word `j` of the side, or none of its bits where it has no such word.
fn word_of(side: &Side, j: usize) -> u64 {
    if j < 128 && 64 * j < side.len() {
        side.word(j)
    } else {
        0
    }
}

#[test]
fn words_hold_the_nodes_and_nothing_past_them(rt: HostRuntime) -> Result<(), Fail> {
    let alloc = rt.alloc();
    for (n, counts, j, words) in SIDES {
        assert!(rt; n <= 128);
        let side = thirds(alloc, n)?;
        let mut other = side.copy(alloc)?;
        other.complement();
        let found = (
            side.len(),
            [side.count(), other.count()],
            [word_of(&side, j), word_of(&other, j)],
        );
        same(&rt, &found, &(n, counts, words), &n);
        other.complement();
        same(&rt, &other.same(&side), &true, &n);
    }
    Ok(())
}

#[test]
fn lists_of_equal_words_differ_by_their_lengths(rt: HostRuntime) -> Result<(), Fail> {
    let alloc = rt.alloc();
    let list = Words::empty(alloc, 65)?;
    let longer = Words::empty(alloc, 66)?;
    let mut full = list.copy(alloc)?;
    full.complement();
    let found = (list.same(&list), list.same(&longer), list.same(&full));
    same(&rt, &found, &(true, false, false), &"equal lists");
    let found = (
        list.is_empty(),
        full.is_empty(),
        full.is_full(),
        full.count(),
    );
    same(&rt, &found, &(true, false, true, 65), &"a full list");
    Ok(())
}
