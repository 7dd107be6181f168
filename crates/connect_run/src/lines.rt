ghost use Rattle.std.specs.Prelude.{◌≡◌, ◌≤◌, ◌++◌, ◌+◌, length, codes, decimal};
ghost use Rattle.arrayvec.specs.ArrayVec.{array_vec_len};
ghost use Rattle.connect_run.specs.WordsCase.{words_text};
ghost use Rattle.connect_run.specs.FaultCase.{why_word, fault_status, fault_text, graph_text, large_text};
ghost use Rattle.connect_run.specs.CheckCase.{malformed_text, rejected_text};
ghost use Rattle.connect_run.specs.UnsuitedCase.{misfit_word, unsuited_text};
ghost use Rattle.connect_run.specs.TrialCase.{value_text, trial_text};

use crate::Status;
use arrayvec::ArrayVec;
use certificate_checker::Rejection;
use graph_text::Why;
use itoa::Buffer;
use problem_defs::{Body, Misfit};

/// The most bytes of a line that is no certificate.
const ROOM: usize = 64;

/// Such a line, kept in the value itself, so that no memory is asked for.
pub type ShortLine = ArrayVec<u8, ROOM>;

/// The answer to words whose first bad place this is.
pub fn words_line(place: usize) -> ShortLine
    ensures { result.items ≡ words_text place }
{
    let mut buffer = Buffer::new();
    let mut text = ShortLine::new();
    push_part(&mut text, b"words ");
    push_part(&mut text, buffer.format(place).as_bytes());
    push_part(&mut text, b"\n");
    text
}

/// The answer to a fault of a graph text, and its status.
pub fn fault_line(line: usize, why: Why) -> (Status, ShortLine)
    ensures status { result.0 ≡ fault_status why }
    ensures text { result.1.items ≡ fault_text line why }
{
    match why {
        Why::ManyNodes | Why::ManyLines | Why::ManyNumbers | Why::ManyCosts => {
            (Status::TooLarge, large_line(why))
        }
        _ => (Status::BadGraph, graph_line(line, why)),
    }
}

fn graph_line(line: usize, why: Why) -> ShortLine
    ensures { result.items ≡ graph_text line why }
{
    let mut buffer = Buffer::new();
    let mut text = ShortLine::new();
    push_part(&mut text, b"graph ");
    push_part(&mut text, buffer.format(line).as_bytes());
    push_part(&mut text, b" ");
    push_part(&mut text, word_of(why));
    push_part(&mut text, b"\n");
    text
}

fn large_line(why: Why) -> ShortLine
    ensures { result.items ≡ large_text why }
{
    let mut text = ShortLine::new();
    push_part(&mut text, b"large ");
    push_part(&mut text, word_of(why));
    push_part(&mut text, b"\n");
    text
}

/// The answer to an ask that doesn't suit its graph.
pub fn unsuited_line(misfit: Misfit) -> ShortLine
    ensures { result.items ≡ unsuited_text misfit }
{
    let word: &[u8] = match misfit {
        Misfit::Kind => b"kind",
        Misfit::Node => b"node",
        Misfit::Same => b"same",
        Misfit::Small => b"small",
    };
    let mut text = ShortLine::new();
    push_part(&mut text, b"unsuited ");
    push_part(&mut text, word);
    push_part(&mut text, b"\n");
    text
}

/// The answer to a certificate that is rejected.
pub fn rejected_line(why: Rejection) -> ShortLine
    ensures { result.items ≡ rejected_text why }
{
    match why {
        Rejection::Malformed { line } => malformed_line(line),
        Rejection::Infeasible => line_of(b"rejected infeasible\n"),
        Rejection::BadDual => line_of(b"rejected dual\n"),
        Rejection::Gap => line_of(b"rejected gap\n"),
        Rejection::NoMemory => line_of(b""),
    }
}

fn malformed_line(line: usize) -> ShortLine
    ensures { result.items ≡ malformed_text line }
{
    let mut buffer = Buffer::new();
    let mut text = ShortLine::new();
    push_part(&mut text, b"rejected malformed ");
    push_part(&mut text, buffer.format(line).as_bytes());
    push_part(&mut text, b"\n");
    text
}

/// What a trial tells of the certificate that was found.
pub fn trial_line(body: &Body) -> ShortLine
    ensures { result.items ≡ trial_text body.now }
{
    match body {
        Body::Walks { value, .. } => value_line(*value),
        Body::Edges { value, .. } => value_line(*value),
        Body::Arcs { value, .. } => value_line(*value),
        Body::Parts { value, .. } => value_line(*value),
        Body::Join { value, .. } => value_line(*value),
        Body::Never(_) => line_of(b"impossible\n"),
        Body::Tree(_) | Body::Turned(_) => line_of(b"done\n"),
    }
}

fn value_line(value: u64) -> ShortLine
    ensures { result.items ≡ value_text value }
{
    let mut buffer = Buffer::new();
    let mut text = ShortLine::new();
    push_part(&mut text, b"value ");
    push_part(&mut text, buffer.format(value).as_bytes());
    push_part(&mut text, b"\n");
    text
}

fn line_of(part: &[u8]) -> ShortLine
    requires { length part.now ≤ ROOM }
    ensures { result.items ≡ part.now }
{
    let mut text = ShortLine::new();
    push_part(&mut text, part);
    text
}

fn word_of(why: Why) -> &'static [u8]
    ensures word { result.now ≡ why_word why }
    ensures short { length result.now ≤ 8 }
{
    match why {
        Why::NoHeader => b"header",
        Why::BadLine => b"line",
        Why::BadName => b"name",
        Why::BadNumber => b"number",
        Why::TwiceNode => b"twice",
        Why::UnknownNode => b"unknown",
        Why::Loop => b"loop",
        Why::WrongKind => b"kind",
        Why::NoNode => b"nonode",
        Why::NoEnd => b"noend",
        Why::ManyNodes => b"nodes",
        Why::ManyLines => b"lines",
        Why::ManyNumbers => b"numbers",
        Why::ManyCosts => b"costs",
    }
}

fn push_part(text: &mut ShortLine, part: &[u8])
    requires { array_vec_len text.old + length part.now ≤ ROOM }
    ensures items { text.new.items ≡ text.old.items ++ part.now }
    ensures len { array_vec_len text.new ≡ array_vec_len text.old + length part.now }
{
    text.try_extend_from_slice(part).unwrap();
}
