//! Where the words of a list stand: in the value itself, or in an allocation.
ghost use Rattle.std.specs.Prelude.{◌≡◌, ◌≢◌, ◌<◌, ◌≤◌, ◌/◌, ℕ, length, replicate, map, not, IfOk, bit_and, bit_or};
ghost use Rattle.word_sides.specs.Held.{len_of, words_of};
ghost use Rattle.word_sides.specs.Limits.{most_values};
ghost use Rattle.word_sides.specs.Words.{IsClean, room, value, values, without};
ghost use lib.Lanes.{zip2};

use crate::NoRoom;
use crate::lanes::{
    complement_words, copy_words, join_words, meet_words, minus_words, part_words, put_value,
};
use std::alloc::Global;

/// How many values are held without an allocation.
const FEW: usize = 128;

/// `len` truth values in words: at most 128 in the value itself, more in an allocation.
#[derive(Debug)]
pub enum Held {
    Few { len: u32, words: [u64; 2] },
    Many { len: u32, words: Vec<u64> },
}

// (the tag and a length of 32 bits share a word)
const _: () = prove!(size_of::<Held>() == 32);

// (by hand, so that who drops a list sees one call and not its two forms)
impl Drop for Held {
    fn drop(self) {
        match self {
            Held::Few { len: _, words: _ } => {}
            Held::Many { len: _, words: _ } => {}
        }
    }
}

impl Held {
    /// `n` values, all false.
    pub fn zeros(alloc: Global, n: usize) -> Result<Held, NoRoom>
        requires { n ≤ most_values }
        ensures len { IfOk result (λ h. len_of h ≡ n) }
        ensures words { IfOk result (λ h. words_of h ≡ replicate (room n) 0) }
    {
        let len = n as u32;
        if n <= FEW {
            return Ok(Held::Few { len, words: [0; 2] });
        }
        let words = Vec::from_elem(alloc, 0, n.div_ceil(64))?;
        Ok(Held::Many { len, words })
    }

    pub fn copy(&self, alloc: Global) -> Result<Held, NoRoom>
        ensures len { IfOk result (λ h. len_of h ≡ len_of self.now) }
        ensures words { IfOk result (λ h. words_of h ≡ words_of self.now) }
    {
        match self {
            Held::Few { len, words } => Ok(Held::Few {
                len: *len,
                words: *words,
            }),
            Held::Many { len, words } => {
                let words = Vec::from_slice(alloc, words.as_slice())?;
                Ok(Held::Many { len: *len, words })
            }
        }
    }

    #[inline]
    pub fn len(&self) -> usize
        ensures { result ≡ len_of self.now }
    {
        match self {
            Held::Few { len, .. } => *len as usize,
            Held::Many { len, .. } => *len as usize,
        }
    }

    #[inline]
    pub fn words(&self) -> &[u64]
        ensures { result.now ≡ words_of self.now }
    {
        match self {
            Held::Few { words, .. } => words,
            Held::Many { words, .. } => words,
        }
    }

    /// Makes value `v` another.
    #[inline]
    pub fn put(&mut self, v: u32, on: bool)
        requires { v / 64 < length (words_of self.old) }
        ensures len { len_of self.new ≡ len_of self.old }
        ensures long { length (words_of self.new) ≡ length (words_of self.old) }
        ensures here { value (words_of self.new) v ≡ on }
        ensures elsewhere { (i : ℕ) → i ≢ v → value (words_of self.new) i ≡ value (words_of self.old) i }
    {
        match self {
            Held::Few { words, .. } => put_value(words, v, on),
            Held::Many { words, .. } => put_value(words, v, on),
        }
    }

    /// Makes every word 0.
    pub fn clear(&mut self)
        ensures len { len_of self.new ≡ len_of self.old }
        ensures words { words_of self.new ≡ replicate (length (words_of self.old)) 0 }
    {
        match self {
            Held::Few { words, .. } => words.fill(0),
            Held::Many { words, .. } => words.fill(0),
        }
    }

    /// Makes the words equal to the others.
    pub fn set_to(&mut self, other: &[u64])
        requires { length (words_of self.old) ≡ length other.now }
        ensures len { len_of self.new ≡ len_of self.old }
        ensures words { words_of self.new ≡ other.now }
    {
        match self {
            Held::Few { words, .. } => copy_words(words, other),
            Held::Many { words, .. } => copy_words(words, other),
        }
    }

    pub fn join(&mut self, other: &[u64])
        requires { length (words_of self.old) ≡ length other.now }
        ensures len { len_of self.new ≡ len_of self.old }
        ensures words { words_of self.new ≡ zip2 bit_or (words_of self.old) other.now }
    {
        match self {
            Held::Few { words, .. } => join_words(words, other),
            Held::Many { words, .. } => join_words(words, other),
        }
    }

    pub fn meet(&mut self, other: &[u64])
        requires { length (words_of self.old) ≡ length other.now }
        ensures len { len_of self.new ≡ len_of self.old }
        ensures words { words_of self.new ≡ zip2 bit_and (words_of self.old) other.now }
    {
        match self {
            Held::Few { words, .. } => meet_words(words, other),
            Held::Many { words, .. } => meet_words(words, other),
        }
    }

    pub fn minus(&mut self, other: &[u64])
        requires { length (words_of self.old) ≡ length other.now }
        ensures len { len_of self.new ≡ len_of self.old }
        ensures words { words_of self.new ≡ zip2 without (words_of self.old) other.now }
    {
        match self {
            Held::Few { words, .. } => minus_words(words, other),
            Held::Many { words, .. } => minus_words(words, other),
        }
    }

    /// Keeps set in each of the two what isn't set in both.
    pub fn part(&mut self, other: &mut Held)
        requires { length (words_of self.old) ≡ length (words_of other.old) }
        ensures len { len_of self.new ≡ len_of self.old }
        ensures words { words_of self.new ≡ zip2 without (words_of self.old) (words_of other.old) }
        ensures other_len { len_of other.new ≡ len_of other.old }
        ensures other_words { words_of other.new ≡ zip2 without (words_of other.old) (words_of self.old) }
    {
        match self {
            Held::Few { words, .. } => other.part_from(words),
            Held::Many { words, .. } => other.part_from(words),
        }
    }

    /// The same, with words that stand anywhere.
    fn part_from(&mut self, other: &mut [u64])
        requires { length other.old ≡ length (words_of self.old) }
        ensures len { len_of self.new ≡ len_of self.old }
        ensures words { words_of self.new ≡ zip2 without (words_of self.old) other.old }
        ensures other { other.new ≡ zip2 without other.old (words_of self.old) }
    {
        match self {
            Held::Few { words, .. } => part_words(other, words),
            Held::Many { words, .. } => part_words(other, words),
        }
    }

    /// Turns every value round.
    pub fn complement(&mut self)
        requires { IsClean (len_of self.old) (words_of self.old) }
        ensures len { len_of self.new ≡ len_of self.old }
        ensures clean { IsClean (len_of self.old) (words_of self.new) }
        ensures turned { values (len_of self.old) (words_of self.new) ≡ map not (values (len_of self.old) (words_of self.old)) }
    {
        let n = self.len();
        match self {
            Held::Few { words, .. } => complement_words(words, n),
            Held::Many { words, .. } => complement_words(words, n),
        }
    }
}
