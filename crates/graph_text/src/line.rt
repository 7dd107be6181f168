ghost use Rattle.std.specs.Prelude.{◌≡◌, ◌<◌, ◌∷◌, ◌++◌, length};
ghost use Rattle.std.specs.List.{position_or_len};
ghost use Rattle.graph_text.specs.Lines as lines_of;
ghost use Rattle.graph_text.specs.Reading.{CutsNoLine};

/// The first line, with its LF if it has one, and what follows it.
pub(crate) fn first_line(bytes: &[u8]) -> (&[u8], &[u8])
    requires { 0 < length bytes.now }
    ensures lines { lines_of.lines bytes.now ≡ result.0.now ∷ lines_of.lines result.1.now }
    ensures split { bytes.now ≡ result.0.now ++ result.1.now }
    ensures whole { CutsNoLine (length result.0.now) bytes.now }
    ensures shorter { length result.1.now < length bytes.now }
{
    let line_feed = line_feed_at(bytes);
    if line_feed < bytes.len() {
        bytes.split_at(line_feed + 1)
    } else {
        bytes.split_at(bytes.len())
    }
}

// The place of the first LF, or the length.
fn line_feed_at(bytes: &[u8]) -> usize
    ensures { result ≡ position_or_len lines_of.is_line_feed bytes.now }
{
    for (at, byte) in bytes.iter().enumerate() {
        if *byte == b'\n' {
            return at;
        }
    }
    bytes.len()
}

/// A line without its LF, and then without one CR at its end.
pub(crate) fn content(line: &[u8]) -> &[u8]
    ensures { result.now ≡ lines_of.content line.now }
{
    let line = match line {
        [front @ .., b'\n'] => front,
        _ => line,
    };
    match line {
        [front @ .., b'\r'] => front,
        _ => line,
    }
}
