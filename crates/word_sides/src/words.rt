ghost use Rattle.std.specs.Prelude.{◌≡◌, ◌<◌, ◌≤◌, ◌+◌, ◌*◌, ◌↔◌, ◌&&◌, ◌||◌, not, ℕ, Bool, All, length, replicate, map, true, false, IsTrue, IfOk, slice_set, slice_index_or, count_by};
ghost use Rattle.word_sides.specs.Words.{bit};
ghost use Rattle.word_sides.specs.Limits.{most_values};
ghost use lib.Lanes.{zip2};

use crate::NoRoom;
use crate::held::Held;
use crate::lanes::{are_zero, count_ones, same_words};
use std::alloc::Global;
use std::marker::Model;

/// A list of at most 8,192 truth values, 64 in a word. At most 128 take no allocation.
#[derive(Debug, Drop)]
pub struct Words {
    held: Held,
}

impl Model for Words {
    ghost use Rattle.std.specs.Prelude.{List, Bool};
    ghost use Rattle.word_sides.specs.Held.{len_of, words_of};
    ghost use Rattle.word_sides.specs.Words.{values, IsClean};

    ghost Value = { List Bool };

    ghost view = { λ s. values (len_of s.held) (words_of s.held) };

    ghost invariant = { λ s. IsClean (len_of s.held) (words_of s.held) };
}

impl Words {
    /// `n` values, all false.
    pub fn empty(alloc: Global, n: usize) -> Result<Words, NoRoom>
        requires { n ≤ most_values }
        ensures { IfOk result (λ s. s ≡ replicate n false) }
    {
        let held = Held::zeros(alloc, n)?;
        Ok(Words { held })
    }

    /// An equal list.
    pub fn copy(&self, alloc: Global) -> Result<Words, NoRoom>
        ensures { IfOk result (λ s. s ≡ self.now) }
    {
        let held = self.held.copy(alloc)?;
        Ok(Words { held })
    }

    /// How many values there are.
    pub fn len(&self) -> usize
        ensures { result ≡ length self.now }
    {
        self.held.len()
    }

    /// How many values are true.
    pub fn count(&self) -> usize
        ensures { result ≡ count_by (λ b. b) self.now }
    {
        count_ones(self.held.words())
    }

    /// Whether no value is true.
    pub fn is_empty(&self) -> bool
        ensures { IsTrue result ↔ All (λ b. b ≡ false) self.now }
    {
        are_zero(self.held.words())
    }

    /// Whether all values are true.
    pub fn is_full(&self) -> bool
        ensures { IsTrue result ↔ All (λ b. b ≡ true) self.now }
    {
        self.count() == self.len()
    }

    /// Whether the two lists are equal.
    pub fn same(&self, other: &Words) -> bool
        ensures { IsTrue result ↔ (self.now ≡ other.now) }
    {
        self.len() == other.len() && same_words(self.held.words(), other.held.words())
    }

    /// Value `v`, from 0.
    pub fn has(&self, v: u32) -> bool
        requires { v < length self.now }
        ensures { result ≡ slice_index_or self.now v false }
    {
        (self.held.words()[(v / 64) as usize] >> (v % 64)) & 1 == 1
    }

    /// Makes value `v` another.
    pub fn put(&mut self, v: u32, on: bool)
        requires { v < length self.old }
        ensures { self.new ≡ slice_set self.old v on }
    {
        self.held.put(v, on);
    }

    /// Makes every value false.
    pub fn clear(&mut self)
        ensures { self.new ≡ replicate (length self.old) false }
    {
        self.held.clear();
    }

    /// Makes it equal to the other list.
    pub fn set_to(&mut self, other: &Words)
        requires { length self.old ≡ length other.now }
        ensures { self.new ≡ other.now }
    {
        self.held.set_to(other.held.words());
    }

    /// Makes true what is true in either.
    pub fn join(&mut self, other: &Words)
        requires { length self.old ≡ length other.now }
        ensures { self.new ≡ zip2 ◌||◌ self.old other.now }
    {
        self.held.join(other.held.words());
    }

    /// Keeps true what is true in both.
    pub fn meet(&mut self, other: &Words)
        requires { length self.old ≡ length other.now }
        ensures { self.new ≡ zip2 ◌&&◌ self.old other.now }
    {
        self.held.meet(other.held.words());
    }

    /// Keeps true what isn't true in the other.
    pub fn minus(&mut self, other: &Words)
        requires { length self.old ≡ length other.now }
        ensures { self.new ≡ zip2 (λ x y. x && not y) self.old other.now }
    {
        self.held.minus(other.held.words());
    }

    /// Keeps true in each of the two what isn't true in both.
    pub fn part(&mut self, other: &mut Words)
        requires { length self.old ≡ length other.old }
        ensures mine { self.new ≡ zip2 (λ x y. x && not y) self.old other.old }
        ensures theirs { other.new ≡ zip2 (λ x y. x && not y) other.old self.old }
    {
        self.held.part(&mut other.held);
    }

    /// Turns every value round.
    pub fn complement(&mut self)
        ensures { self.new ≡ map not self.old }
    {
        self.held.complement();
    }

    /// Word `j`: its bit `b` is value 64`j` + `b`, and none past the end is set.
    pub fn word(&self, j: usize) -> u64
        requires { 64 * j < length self.now }
        ensures { (b : ℕ) → b < 64 → bit result b ≡ slice_index_or self.now (64 * j + b) false }
    {
        self.held.words()[j]
    }
}
