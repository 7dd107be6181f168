ghost use Rattle.std.specs.Prelude.{◌≡◌, ◌≢◌, ◌⊎◌, ◌↔◌, ℕ, ◌+◌, ◌<◌, ◌≤◌, ◌^◌, List, length, slice_index, slice_set, IsTrue, IsSome, IfSome, IfNone, IfOk};
ghost use Rattle.graph_core.specs.Trees.{IsAcyclic};
ghost use Rattle.graph_core.specs.declared.graph.Line.{Line as LineOf};
ghost use Rattle.graph_core.specs.Labels.{Adds};
ghost use Rattle.graphic_matroid.specs.Roots.{AreRoots, AreClasses, HaveOneRoot, HaveTwoRoots};

use graph_core::{Line, NoMemory};
use std::alloc::Global;

/// Classes of nodes as trees of parents, whose roots stand for the classes. A node has a smaller rank
/// than its parent, and a class of rank r has at least 2^r nodes, so that a walk to the root is short.
#[derive(Debug, Drop)]
pub(crate) struct Classes {
    pub(crate) parents: Vec<u32>,
    pub(crate) ranks: Vec<u32>,
}

impl Classes {
    /// Each of `n` nodes as a class of its own.
    pub(crate) fn new(alloc: Global, n: usize) -> Result<Classes, NoMemory>
        requires { n < 2 ^ 32 }
        ensures parents_long { IfOk result (λ c. length c.parents.items ≡ n) }
        ensures ranks_long { IfOk result (λ c. length c.ranks.items ≡ n) }
        ensures parents { IfOk result (λ c. (v : ℕ) → v < n → slice_index c.parents.items v ≡ v) }
        ensures ranks { IfOk result (λ c. (v : ℕ) → v < n → slice_index c.ranks.items v ≡ 0) }
    {
        let parents = zeros(alloc, n)?;
        let ranks = zeros(alloc, n)?;
        let mut classes = Classes { parents, ranks };
        classes.reset();
        Ok(classes)
    }

    /// Makes each node a class of its own.
    pub(crate) fn reset(&mut self)
        requires alike { length self.old.ranks.items ≡ length self.old.parents.items }
        requires few { length self.old.parents.items < 2 ^ 32 }
        ensures parents_long { length self.new.parents.items ≡ length self.old.parents.items }
        ensures ranks_long { length self.new.ranks.items ≡ length self.old.parents.items }
        ensures parents { (v : ℕ) → v < length self.old.parents.items → slice_index self.new.parents.items v ≡ v }
        ensures ranks { (v : ℕ) → v < length self.old.parents.items → slice_index self.new.ranks.items v ≡ 0 }
    {
        for i in 0..self.parents.len() {
            self.parents[i] = i as u32;
            self.ranks[i] = 0;
        }
    }

    /// The root of the node's class.
    pub(crate) fn root(&self, node: u32) -> u32
        requires roots { AreRoots (length self.now.parents.items) self.now.parents.items self.now.ranks.items }
        requires below { node < length self.now.parents.items }
        ensures below { result < length self.now.parents.items }
        ensures root { slice_index self.now.parents.items result ≡ result }
        ensures same { (label : ℕ → ℕ) → ((v : ℕ) → v < length self.now.parents.items → label (slice_index self.now.parents.items v) ≡ label v) → label result ≡ label node }
    {
        let mut at = node;
        'climb: loop {
            let parent = self.parents[at as usize];
            if parent == at {
                return at;
            }
            at = parent;
        }
    }

    /// Makes one class of two, of whose roots the one of less rank gets the other as its parent.
    pub(crate) fn join(&mut self, a: u32, b: u32)
        requires roots { AreRoots (length self.old.parents.items) self.old.parents.items self.old.ranks.items }
        requires a_below { a < length self.old.parents.items }
        requires b_below { b < length self.old.parents.items }
        requires a_root { slice_index self.old.parents.items a ≡ a }
        requires b_root { slice_index self.old.parents.items b ≡ b }
        requires apart { a ≢ b }
        requires low { (v : ℕ) → v < length self.old.parents.items → slice_index self.old.ranks.items v + 1 < 2 ^ 32 }
        ensures roots { AreRoots (length self.old.parents.items) self.new.parents.items self.new.ranks.items }
        ensures linked { (self.new.parents.items ≡ slice_set self.old.parents.items a b) ⊎ (self.new.parents.items ≡ slice_set self.old.parents.items b a) }
        ensures low { (v : ℕ) → v < length self.old.parents.items → slice_index self.new.ranks.items v ≤ slice_index self.old.ranks.items v + 1 }
    {
        if self.ranks[a as usize] < self.ranks[b as usize] {
            self.parents[a as usize] = b;
        } else {
            if self.ranks[a as usize] == self.ranks[b as usize] {
                self.ranks[a as usize] += 1;
            }
            self.parents[b as usize] = a;
        }
    }

    /// The roots of the classes of the line's two ends, where they are two.
    pub(crate) fn two_roots(&self, line: Line) -> Option<(u32, u32)>
        requires roots { AreRoots (length self.now.parents.items) self.now.parents.items self.now.ranks.items }
        requires tail { line.tail < length self.now.parents.items }
        requires head { line.head < length self.now.parents.items }
        ensures two { IfSome result (λ roots. HaveTwoRoots self.now.parents.items line roots.0 roots.1) }
        ensures one { IfNone result (HaveOneRoot self.now.parents.items line) }
        ensures forest { (ls more : List LineOf) → AreClasses (length self.now.parents.items) self.now.parents.items ls → Adds ls line more → IsAcyclic (length self.now.parents.items) ls → (IsSome result ↔ IsAcyclic (length self.now.parents.items) more) }
    {
        let tail = self.root(line.tail);
        let head = self.root(line.head);
        if tail == head {
            None
        } else {
            Some((tail, head))
        }
    }

    /// Makes one class of those of the line's two ends, and says whether they were two.
    pub(crate) fn join_ends(&mut self, line: Line) -> bool
        requires roots { AreRoots (length self.old.parents.items) self.old.parents.items self.old.ranks.items }
        requires tail { line.tail < length self.old.parents.items }
        requires head { line.head < length self.old.parents.items }
        requires low { (v : ℕ) → v < length self.old.parents.items → slice_index self.old.ranks.items v + 1 < 2 ^ 32 }
        ensures roots { AreRoots (length self.old.parents.items) self.new.parents.items self.new.ranks.items }
        ensures low { (v : ℕ) → v < length self.old.parents.items → slice_index self.new.ranks.items v ≤ slice_index self.old.ranks.items v + 1 }
        ensures classes { (ls more : List LineOf) → AreClasses (length self.old.parents.items) self.old.parents.items ls → Adds ls line more → AreClasses (length self.old.parents.items) self.new.parents.items more }
        ensures forest { (ls more : List LineOf) → AreClasses (length self.old.parents.items) self.old.parents.items ls → Adds ls line more → IsAcyclic (length self.old.parents.items) ls → (IsTrue result ↔ IsAcyclic (length self.old.parents.items) more) }
    {
        let Some((tail, head)) = self.two_roots(line) else {
            return false;
        };
        self.join(tail, head);
        true
    }
}

/// One number for each node.
fn zeros(alloc: Global, n: usize) -> Result<Vec<u32>, NoMemory>
    ensures { IfOk result (λ v. length v.items ≡ n) }
{
    let mut numbers = Vec::new(alloc);
    for _ in 0..n {
        if numbers.push(0).is_err() {
            return Err(NoMemory);
        }
    }
    Ok(numbers)
}
