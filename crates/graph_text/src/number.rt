ghost use Rattle.std.specs.Prelude.{◌≡◌, ◌≢◌, ℕ, ◌+◌, List, ◌<◌, ◌≤◌, ◌^◌, is_some, IfSome, MatchOption};
ghost use Rattle.std.specs.Fmt.{decimal};
ghost use Rattle.graph_text.specs.Numbers as numbers;

use itoa::Buffer;

/// The number that the word is a decimal of, without sign or leading zeros, where it is at most so
/// great.
pub(crate) fn number_to(word: &[u8], most: u64) -> Option<u64>
    ensures is { is_some result ≡ numbers.is_number most word.now }
    ensures value { IfSome result (λ n. n ≡ numbers.value word.now) }
    ensures within { IfSome result (λ n. n ≤ most) }
{
    match number(word) {
        Some(number) => { if number <= most { Some(number) } else { None } }
        None => None,
    }
}

// The number below 2^64 that the word is such a decimal of.
fn number(word: &[u8]) -> Option<u64>
    ensures { MatchOption result ((n : ℕ) → n < 2 ^ 64 → decimal n ≢ word.now) (λ n. (n < 2 ^ 64) × (decimal n ≡ word.now)) }
{
    let Ok(text) = std::str::from_utf8(word) else {
        return None;
    };
    let Ok(n) = text.parse::<u64>() else {
        return None;
    };
    let mut buffer = Buffer::new();
    if buffer.format(n).as_bytes() == word {
        Some(n)
    } else {
        None
    }
}

/// What an arc costs whose number this is.
pub(crate) fn arc_cost(fixed: bool, number: u64) -> u64
    ensures cost { (word : List ℕ) → number ≡ numbers.value word → result ≡ numbers.arc_cost fixed word }
    ensures within { result ≤ 1 + number }
{
    if fixed { 1 } else { number }
}
