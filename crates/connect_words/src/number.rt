ghost use Rattle.std.specs.Prelude.{◌≡◌, ◌≢◌, ◌↔◌, ℕ, ◌^◌, ◌<◌, ◌≤◌, length, slice_index, IsTrue, IfSome, IfNone};
ghost use Rattle.std.specs.Fmt.{decimal};
ghost use Rattle.connect_words.specs.Blanks.{IsDecimal};

/// The number that the word writes as a decimal without sign or leading zeros.
pub fn number(word: &str) -> Option<u32>
    ensures found { IfSome result (λ number. word.now ≡ decimal number) }
    ensures within { IfSome result (λ number. number < 2 ^ 32) }
    ensures absent { IfNone result ((number : ℕ) → number < 2 ^ 32 → word.now ≢ decimal number) }
{
    if !is_plain(word.as_bytes()) {
        return None;
    }
    match word.parse() {
        Ok(number) => Some(number),
        Err(_) => None,
    }
}

/// Whether the word writes such a number within these bounds.
pub fn is_number(word: &str, low: u32, high: u32) -> bool
    ensures { IsTrue result ↔ IsDecimal (λ number. (low ≤ number) × (number ≤ high)) word.now }
{
    match number(word) {
        Some(number) => low <= number && number <= high,
        None => false,
    }
}

// Whether the text begins with no plus, and with a zero only where this is all of it.
fn is_plain(text: &[u8]) -> bool
    ensures { IsTrue result ↔ ((slice_index text.now 0 ≢ 43) × (slice_index text.now 0 ≡ 48 → length text.now ≤ 1)) }
{
    match text.first() {
        Some(b'+') => false,
        Some(b'0') => text.len() == 1,
        _ => true,
    }
}
