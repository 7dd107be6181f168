ghost use Rattle.std.specs.Prelude.{◌≡◌, ◌^◌, ◌<◌, ◌≤◌, ℕ, Bool, List, length};
ghost use Rattle.cut_fn.specs.Submodular.{IsSubmodular, BoundsDifferences, BoundsThreeSides};
ghost use Rattle.graph_core.specs.Limits.{side_room};

use graph_core::Side;

/// A function of the sides of `size` nodes that is submodular.
pub trait CutFn {
    ghost nodes: { Self → ℕ };

    ghost cut: { Self → List Bool → ℕ };

    /// How many nodes there are.
    fn size(&self) -> usize
        ensures nodes { result ≡ nodes self.now }
        ensures few { result ≤ side_room };

    /// The value of a side.
    fn value(&self, side: &Side) -> u64
        requires { length side.now ≡ nodes self.now }
        ensures value { result ≡ cut self.now side.now }
        ensures small { result < 2 ^ 32 };

    ghost submodular: { (f : Self) → IsSubmodular (nodes f) (cut f) };
}

/// A cut function f that is posimodular with weights w of the nodes: f(X) + f(Y) is at least
/// f(X - Y) + f(Y - X) + 2 w(X ∩ Y), too, and a law of three sides goes with it. So is, with weight 0,
/// a function that has the same value at a side and its complement.
pub trait Symmetric: CutFn {
    ghost weight_of: { Self → ℕ → ℕ };

    /// The weight of a node: in a star, how many edges join it to the new node; else 0.
    fn weight(&self, v: u32) -> u64
        requires { v < Self.nodes self.now }
        ensures { result ≡ weight_of self.now v };

    ghost differences: { (f : Self) → BoundsDifferences (Self.nodes f) (Self.cut f) (weight_of f) };

    ghost three_sides: { (f : Self) → BoundsThreeSides (Self.nodes f) (Self.cut f) (weight_of f) };
}
