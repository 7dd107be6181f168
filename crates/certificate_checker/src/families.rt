ghost use Rattle.std.specs.Prelude.{◌≡◌, ◌<◌, ◌≤◌, ◌↔◌, All, length, IsTrue};
ghost use Rattle.graph_core.specs.Families.{members_with, IsDisjointFamily, IsPartition};
ghost use Rattle.graph_core.specs.Side.{size, IsProper};
ghost use Rattle.problem_defs.specs.Shaped.{AreSides};

use graph_core::Sides;

/// How many of the sides have the node.
fn members_with(sides: &Sides, node: u32) -> usize
    requires { All (λ X. node < length X) sides.now }
    ensures { result ≡ members_with node sides.now }
{
    sides
        .as_slice()
        .iter()
        .filter(|side| side.has(node))
        .count()
}

/// Whether each class has a node.
fn are_nonempty(classes: &Sides) -> bool
    ensures { IsTrue result ↔ All (λ X. 1 ≤ size X) classes.now }
{
    classes.as_slice().iter().all(|side| side.count() >= 1)
}

/// Whether no class is empty, and each of `count` nodes is in exactly one.
pub fn is_partition(classes: &Sides, count: u32) -> bool
    requires { AreSides count classes.now }
    ensures { IsTrue result ↔ IsPartition count classes.now }
{
    // A text may have millions of them, and a partition has at most one for each node.
    if classes.len() > count as usize {
        return false;
    }
    if !are_nonempty(classes) {
        return false;
    }
    for node in 0..count {
        if members_with(classes, node) != 1 {
            return false;
        }
    }
    true
}

/// Whether each side is proper.
fn are_proper(sides: &Sides) -> bool
    ensures { IsTrue result ↔ All (λ X. IsProper (length X) X) sides.now }
{
    for side in sides.as_slice() {
        if !side.is_proper() {
            return false;
        }
    }
    true
}

/// Whether the sides are proper, and none of `count` nodes is in two.
pub fn is_disjoint_family(sides: &Sides, count: u32) -> bool
    requires { AreSides count sides.now }
    ensures { IsTrue result ↔ IsDisjointFamily count sides.now }
{
    if sides.len() > count as usize {
        return false;
    }
    if !are_proper(sides) {
        return false;
    }
    for node in 0..count {
        if members_with(sides, node) > 1 {
            return false;
        }
    }
    true
}
