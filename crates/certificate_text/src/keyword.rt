ghost use Rattle.std.specs.Prelude.{◌≡◌};
ghost use Rattle.certificate_text.specs.Finds.{Finds};
ghost use Rattle.certificate_text.specs.Keywords as keywords;
ghost use Rattle.certificate_text.specs.Words as words_of;

use crate::line::DualKind;
use crate::spell::dual_word;

/// The first word of a line.
#[derive(Clone, Copy)]
pub enum Keyword {
    Certificate,
    Command,
    Value,
    Impossible,
    Path,
    Part,
    Join,
    Tree,
    Edge,
    Arc,
    Dual,
    Set,
    End,
}

// What a word is looked up in: each keyword and each dual.
static KEYWORDS: [Keyword; 13] = [
    Keyword::Certificate,
    Keyword::Command,
    Keyword::Value,
    Keyword::Impossible,
    Keyword::Path,
    Keyword::Part,
    Keyword::Join,
    Keyword::Tree,
    Keyword::Edge,
    Keyword::Arc,
    Keyword::Dual,
    Keyword::Set,
    Keyword::End,
];

static KINDS: [DualKind; 10] = [
    DualKind::Cut,
    DualKind::Components,
    DualKind::Subpartition,
    DualKind::In,
    DualKind::Out,
    DualKind::Partition,
    DualKind::Induced,
    DualKind::Nothing,
    DualKind::Dicuts,
    DualKind::Dicut,
];

/// The keyword of this word.
pub fn keyword_of(word: &[u8]) -> Option<Keyword>
    ensures { Finds (λ _. Unit {0}) keywords.keyword_word word.now result }
{
    for keyword in &KEYWORDS {
        if word == word_of_keyword(*keyword) {
            return Some(*keyword);
        }
    }
    None
}

// The word for a keyword.
fn word_of_keyword(keyword: Keyword) -> &'static [u8]
    ensures { result.now ≡ keywords.keyword_word keyword }
{
    match keyword {
        Keyword::Certificate => b"certificate",
        Keyword::Command => b"command",
        Keyword::Value => b"value",
        Keyword::Impossible => b"impossible",
        Keyword::Path => b"path",
        Keyword::Part => b"part",
        Keyword::Join => b"join",
        Keyword::Tree => b"tree",
        Keyword::Edge => b"edge",
        Keyword::Arc => b"arc",
        Keyword::Dual => b"dual",
        Keyword::Set => b"set",
        Keyword::End => b"end",
    }
}

/// The dual of this word.
pub fn kind_of(word: &[u8]) -> Option<DualKind>
    ensures { Finds (λ _. Unit {0}) words_of.dual_word word.now result }
{
    for kind in &KINDS {
        if word == dual_word(*kind) {
            return Some(*kind);
        }
    }
    None
}
