ghost use Rattle.std.specs.Prelude.{◌≡◌, ◌≢◌, ◌<◌, ◌≤◌, ◌+◌, ◌*◌, ◌/◌, ◌↔◌, ℕ, not, false, IsTrue, ltb, length, map, bit_and, bit_or};
ghost use Rattle.word_sides.specs.Words.{IsClean, bit, value, values, without, ones_in};
ghost use lib.Lanes.{zip2};

/// The word with bit `b` set or cleared.
fn with_bit(word: u64, b: u32, on: bool) -> u64
    requires { b < 64 }
    ensures here { bit result b ≡ on }
    ensures elsewhere { (i : ℕ) → i < 64 → i ≢ b → bit result i ≡ bit word i }
{
    let mask = 1u64 << b;
    if on { word | mask } else { word & !mask }
}

/// Makes the value `v` of the words another.
#[inline]
pub fn put_value(words: &mut [u64], v: u32, on: bool)
    requires { v / 64 < length words.old }
    ensures here { value words.new v ≡ on }
    ensures elsewhere { (i : ℕ) → i ≢ v → value words.new i ≡ value words.old i }
{
    let j = (v / 64) as usize;
    words[j] = with_bit(words[j], v % 64, on);
}

/// Word `j` of `n` values that are all true.
fn full_word(n: usize, j: usize) -> u64
    requires { j < 128 }
    ensures { (b : ℕ) → b < 64 → bit result b ≡ ltb (64 * j + b) n }
{
    let rest = n.saturating_sub(64 * j);
    if rest < 64 {
        (1u64 << rest) - 1
    } else {
        u64::MAX
    }
}

/// Whether no bit of the words is set.
pub fn are_zero(words: &[u64]) -> bool
    ensures { IsTrue result ↔ ((i : ℕ) → value words.now i ≡ false) }
{
    words.iter().all(|word| *word == 0)
}

/// How many bits of the words are set.
pub fn count_ones(words: &[u64]) -> usize
    requires { length words.now ≤ 128 }
    ensures { result ≡ ones_in (64 * length words.now) words.now }
{
    let mut ones = 0;
    for word in words {
        ones += word.count_ones() as usize;
    }
    ones
}

/// Turns round the `n` values that the words hold.
pub fn complement_words(words: &mut [u64], n: usize)
    requires { IsClean n words.old }
    ensures clean { IsClean n words.new }
    ensures turned { values n words.new ≡ map not (values n words.old) }
{
    for j in 0..words.len() {
        words[j] ^= full_word(n, j);
    }
}

/// Whether the words hold the same truth values.
pub fn same_words(xs: &[u64], ys: &[u64]) -> bool
    requires { length xs.now ≡ length ys.now }
    ensures { IsTrue result ↔ ((i : ℕ) → value xs.now i ≡ value ys.now i) }
{
    xs == ys
}

/// Makes the words equal to the others.
pub fn copy_words(into: &mut [u64], other: &[u64])
    requires { length into.old ≡ length other.now }
    ensures { into.new ≡ other.now }
{
    for j in 0..into.len() {
        into[j] = other[j];
    }
}

pub fn join_words(into: &mut [u64], other: &[u64])
    requires { length into.old ≡ length other.now }
    ensures { into.new ≡ zip2 bit_or into.old other.now }
{
    for j in 0..into.len() {
        into[j] |= other[j];
    }
}

pub fn meet_words(into: &mut [u64], other: &[u64])
    requires { length into.old ≡ length other.now }
    ensures { into.new ≡ zip2 bit_and into.old other.now }
{
    for j in 0..into.len() {
        into[j] &= other[j];
    }
}

pub fn minus_words(into: &mut [u64], other: &[u64])
    requires { length into.old ≡ length other.now }
    ensures { into.new ≡ zip2 without into.old other.now }
{
    for j in 0..into.len() {
        into[j] ^= into[j] & other[j];
    }
}

pub fn part_words(x: &mut [u64], y: &mut [u64])
    requires { length x.old ≡ length y.old }
    ensures x { x.new ≡ zip2 without x.old y.old }
    ensures y { y.new ≡ zip2 without y.old x.old }
{
    for j in 0..x.len() {
        let in_x = x[j];
        let in_y = y[j];
        x[j] = in_x ^ (in_x & in_y);
        y[j] = in_y ^ (in_y & in_x);
    }
}
