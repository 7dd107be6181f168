//! Parts of matroids in which the sets of at most so many elements are free.

ghost use Rattle.std.specs.Prelude.{◌≡◌};
ghost use Rattle.graph_core.specs.Side.{size};

use crate::asserts::same;
use graph_core::{Marks, NoMemory};
use matroid_union::{FreeParts, Matroid, union};
use std::alloc::Global;
use std::test::Fail;

fn taken(set: &[bool]) -> usize
    ensures { result ≡ size set.now }
{
    set.iter().filter(|mark| **mark).count()
}

/// The sets of at most `most` elements are free.
#[derive(Drop)]
struct Uniform {
    size: usize,
    most: usize,
}

impl Matroid for Uniform {
    ghost use Rattle.std.specs.Prelude.{◌≤◌, length};
    ghost use Rattle.solver_tests.specs.Uniform.{uniform_matroid};

    type Set = Vec<bool>;

    ghost count = { λ u. u.size };

    ghost free = { λ u X. size X ≤ u.most };

    ghost members = { λ set. set.items };

    ghost keeps = { λ u set. (length set.items ≡ u.size) × (size set.items ≤ u.most) };

    ghost laws = { λ u. uniform_matroid u.size u.most };

    fn size(&self) -> usize {
        self.size
    }

    fn is_free(&mut self, set: &Marks) -> bool {
        taken(set.as_slice()) <= self.most
    }

    fn no_elements(&self, alloc: Global) -> Result<Vec<bool>, NoMemory> {
        Ok(Vec::from_elem(alloc, false, self.size)?)
    }

    fn clear(&self, set: &mut Vec<bool>) {
        set.fill(false);
    }

    fn takes(&self, set: &Vec<bool>, element: u32) -> bool {
        set[element as usize] || taken(set.as_slice()) < self.most
    }

    fn add(&self, set: &mut Vec<bool>, element: u32) {
        set[element as usize] = true;
    }
}

#[test]
fn parts_of_a_uniform_matroid(rt: HostRuntime) -> Result<(), Fail> {
    for (size, most, k, left) in [
        (5, 2, 2, 1),
        (5, 2, 3, 0),
        (4, 4, 1, 0),
        (3, 0, 2, 3),
        (0, 1, 2, 0),
        (3, 1, 0, 3),
    ] {
        let mut matroid = Uniform { size, most };
        let FreeParts { parts, reached } = union(rt.alloc(), &mut matroid, k)?;
        let mut taken: usize = 0;
        for part in parts.as_slice() {
            taken = taken.wrapping_add(part.len());
        }
        let sizes = (parts.len(), taken.wrapping_add(left), reached.len());
        same(&rt, &sizes, &(k as usize, size, size), &(size, most, k));
    }
    Ok(())
}
