ghost use Rattle.std.specs.Prelude.{◌≡◌};
ghost use Rattle.graph_text.specs.Said.{line_says, says_one, says_two, says_three, says_four, says_five};
ghost use Rattle.graph_text.specs.Item.{said};

use crate::line::content;
use crate::words::next_word;
use graph_core::Kind;

/// What a line says.
#[derive(Clone, Copy)]
pub enum Item<'a> {
    Skipped,
    Header(Kind),
    /// A name and the word for a number.
    Node(&'a [u8], &'a [u8]),
    Edge(&'a [u8], &'a [u8]),
    /// Two names, whether it is fixed, and the word for a cost.
    Arc(&'a [u8], &'a [u8], bool, &'a [u8]),
    End,
    Other,
}

/// What the line says, with or without its LF.
pub(crate) fn item_of_line(line: &[u8]) -> Item<'_>
    ensures { said result ≡ line_says line.now }
{
    let Some((first, rest)) = next_word(content(line)) else {
        return Item::Skipped;
    };
    if let [b'#', ..] = first {
        return Item::Skipped;
    }
    let Some((second, rest)) = next_word(rest) else {
        return item_of_one(first);
    };
    let Some((third, rest)) = next_word(rest) else {
        return item_of_two(first, second);
    };
    let Some((fourth, rest)) = next_word(rest) else {
        return item_of_three(first, second, third);
    };
    let Some((fifth, rest)) = next_word(rest) else {
        return item_of_four(first, second, third, fourth);
    };
    if next_word(rest).is_some() {
        return Item::Other;
    }
    item_of_five(first, second, third, fourth, fifth)
}

fn item_of_one<'a>(keyword: &[u8]) -> Item<'a>
    ensures { said result ≡ says_one keyword.now }
{
    if keyword == b"end".as_slice() {
        Item::End
    } else {
        Item::Other
    }
}

fn item_of_two<'a>(keyword: &[u8], word: &'a [u8]) -> Item<'a>
    ensures { said result ≡ says_two keyword.now word.now }
{
    if keyword == b"node".as_slice() {
        Item::Node(word, b"0".as_slice())
    } else if keyword == b"graph".as_slice() && word == b"undirected".as_slice() {
        Item::Header(Kind::Undirected)
    } else if keyword == b"graph".as_slice() && word == b"directed".as_slice() {
        Item::Header(Kind::Directed)
    } else {
        Item::Other
    }
}

fn item_of_three<'a>(keyword: &[u8], first: &'a [u8], second: &'a [u8]) -> Item<'a>
    ensures { said result ≡ says_three keyword.now first.now second.now }
{
    if keyword == b"node".as_slice() {
        Item::Node(first, second)
    } else if keyword == b"edge".as_slice() {
        Item::Edge(first, second)
    } else if keyword == b"arc".as_slice() {
        Item::Arc(first, second, false, b"1".as_slice())
    } else {
        Item::Other
    }
}

fn item_of_four<'a>(keyword: &[u8], tail: &'a [u8], head: &'a [u8], last: &[u8]) -> Item<'a>
    ensures { said result ≡ says_four keyword.now tail.now head.now last.now }
{
    if keyword == b"arc".as_slice() && last == b"fixed".as_slice() {
        Item::Arc(tail, head, true, b"1".as_slice())
    } else {
        Item::Other
    }
}

fn item_of_five<'a>(
    keyword: &[u8],
    tail: &'a [u8],
    head: &'a [u8],
    fourth: &[u8],
    cost: &'a [u8],
) -> Item<'a>
    ensures { said result ≡ says_five keyword.now tail.now head.now fourth.now cost.now }
{
    if keyword == b"arc".as_slice() && fourth == b"cost".as_slice() {
        Item::Arc(tail, head, false, cost)
    } else {
        Item::Other
    }
}
