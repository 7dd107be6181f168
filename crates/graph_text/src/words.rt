ghost use Rattle.std.specs.Prelude.{◌≡◌, ◌∷◌, [], MatchOption};
ghost use Rattle.std.specs.List.{position_or_len};
ghost use Rattle.graph_text.specs.Lines as lines_of;

/// The first word, and what follows it.
pub(crate) fn next_word(text: &[u8]) -> Option<(&[u8], &[u8])>
    ensures { MatchOption result (lines_of.words text.now ≡ []) (λ found. lines_of.words text.now ≡ found.0.now ∷ lines_of.words found.1.now) }
{
    let mut rest = text;
    while let [byte, after @ ..] = rest {
        if !is_blank(*byte) {
            let end = blank_at(rest);
            return Some(rest.split_at(end));
        }
        rest = after;
    }
    None
}

fn is_blank(byte: u8) -> bool
    ensures { result ≡ lines_of.is_blank byte }
{
    byte == b' ' || byte == b'\t'
}

// The place of the first blank, or the length.
fn blank_at(bytes: &[u8]) -> usize
    ensures { result ≡ position_or_len lines_of.is_blank bytes.now }
{
    for (at, byte) in bytes.iter().enumerate() {
        if is_blank(*byte) {
            return at;
        }
    }
    bytes.len()
}
