ghost use Rattle.std.specs.Prelude.{◌≡◌, ◌≢◌, ◌↔◌, ◌⊎◌, ◌∷◌, [], None, Some, IsTrue, IfOk, IfErr, MatchOption, List};
ghost use Rattle.std.specs.Option.{option_and_then};
ghost use Rattle.certificate_text.specs.declared.row.Slot.{Slot};
ghost use Rattle.certificate_text.specs.declared.line.CertLine.{CertLine};
ghost use Rattle.certificate_text.specs.declared.line.CertLine.TheVariants.{Title, Command};
ghost use Rattle.problem_defs.specs.declared.ask.Ask as asks;
ghost use Rattle.certificate_text.specs.Finds.{Finds};
ghost use Rattle.certificate_text.specs.Words.{spelled};
ghost use Rattle.certificate_text.specs.Valid.{IsValid};
ghost use Rattle.certificate_text.specs.Places.{view};
ghost use Rattle.certificate_text.specs.Reading.{HasRead};
ghost use Rattle.certificate_text.specs.Loop.{AreSlotsOf};
ghost use Rattle.certificate_text.specs.Front.{IsAtFront};
ghost use Rattle.certificate_text.specs.Refusal.{IsRefused};

use crate::body::make_body;
use crate::gather::{empty_content, take};
use crate::line::CertLine;
use crate::place::{Place, is_done, is_lost, next_place};
use crate::read_line::read_line;
use crate::row::Slot;
use crate::tables::{first_row, second_row, slots};
use crate::text_lines::whole_line;
use graph_core::{Graph, NoMemory};
use problem_defs::{Ask, Cert};
use std::alloc::Global;
use thiserror::Error;

/// Why no certificate was read.
#[derive(Clone, Copy, Debug, PartialEq, Eq, Error)]
pub enum CertRefusal {
    /// The least number of first lines that begin no certificate text; where every whole line begins one, one more than there are.
    #[error("line {line} is no line of a certificate")]
    Bad { line: usize },
    #[error("memory ran out")]
    NoMemory,
}

// Whether both rows have lost.
fn are_lost(one: Place<'_>, two: Place<'_>) -> bool
    ensures { IsTrue result ↔ (view one.entry ≡ None) × (view two.entry ≡ None) }
{
    is_lost(one) && is_lost(two)
}

// Whether one of the rows is at its end.
fn is_ended(one: Place<'_>, two: Place<'_>) -> bool
    ensures { IsTrue result ↔ ((view one.entry ≡ Some []) ⊎ (view two.entry ≡ Some [])) }
{
    is_done(one) || is_done(two)
}

// The certificate whose first two lines were read.
fn read_rest<'a>(
    alloc: Global,
    graph: &Graph,
    ask: Ask,
    first: Place<'a>,
    second: Place<'a>,
    bytes: &[u8],
    after: &[u8],
) -> Result<(Cert, usize), CertRefusal>
    requires rows_are { (row : List Slot) × (view first ≡ Some row) × AreSlotsOf graph.now ask row (view second) }
    requires begun { HasRead graph.now bytes.now (Title ∷ Command ask ∷ []) after.now }
    ensures ok { IfOk result (λ found. IsAtFront graph.now bytes.now found.0 found.1) }
    ensures bad { IfErr result (IsRefused graph.now bytes.now) }
{
    graph.known();
    let mut one = first;
    let mut two = second;
    let mut content = empty_content(alloc);
    let mut count: usize = 2;
    let mut rest = after;
    while let Some((front, behind)) = whole_line(rest) {
        let Ok(found) = read_line(alloc, graph, front) else {
            return Err(CertRefusal::NoMemory);
        };
        let Some(line) = found else {
            return Err(CertRefusal::Bad { line: count + 1 });
        };
        one = next_place(graph, one, &line);
        two = next_place(graph, two, &line);
        if are_lost(one, two) {
            return Err(CertRefusal::Bad { line: count + 1 });
        }
        let Ok(()) = take(&mut content, line) else {
            return Err(CertRefusal::NoMemory);
        };
        if is_ended(one, two) {
            let Ok(body) = make_body(alloc, graph, ask, content) else {
                return Err(CertRefusal::NoMemory);
            };
            return Ok((Cert { ask, body }, bytes.len() - behind.len()));
        }
        rest = behind;
        count += 1;
    }
    Err(CertRefusal::Bad { line: count + 1 })
}

// The same, by the rows of the command.
fn read_rows(
    alloc: Global,
    graph: &Graph,
    ask: Ask,
    bytes: &[u8],
    after: &[u8],
) -> Result<(Cert, usize), CertRefusal>
    requires begun { HasRead graph.now bytes.now (Title ∷ Command ask ∷ []) after.now }
    ensures ok { IfOk result (λ found. IsAtFront graph.now bytes.now found.0 found.1) }
    ensures bad { IfErr result (IsRefused graph.now bytes.now) }
{
    let m = graph.line_count();
    let Ok(one) = slots(alloc, m, first_row(ask)) else {
        return Err(CertRefusal::NoMemory);
    };
    let Some(row) = second_row(ask) else {
        return read_rest(
            alloc,
            graph,
            ask,
            Place::Left(one.as_slice()),
            Place::Lost,
            bytes,
            after,
        );
    };
    let Ok(two) = slots(alloc, m, row) else {
        return Err(CertRefusal::NoMemory);
    };
    read_rest(
        alloc,
        graph,
        ask,
        Place::Left(one.as_slice()),
        Place::Left(two.as_slice()),
        bytes,
        after,
    )
}

fn is_title(found: &Option<CertLine>) -> bool
    ensures { IsTrue result ↔ (found.now ≡ Some Title) }
{
    matches!(found, Some(CertLine::Title))
}

fn command_of(found: &Option<CertLine>) -> Option<Ask>
    ensures { MatchOption result ((ask : asks.Ask) → found.now ≢ Some (Command ask)) (λ ask. found.now ≡ Some (Command ask)) }
{
    match found {
        Some(CertLine::Command(ask)) => Some(*ask),
        _ => None,
    }
}

// Whether the line is a certificate's first.
fn reads_title(alloc: Global, graph: &Graph, line: &[u8]) -> Result<bool, NoMemory>
    ensures { IfOk result (λ is. IsTrue is ↔ (spelled graph.now Title ≡ line.now)) }
{
    graph.known();
    let found = read_line(alloc, graph, line)?;
    Ok(is_title(&found))
}

// The ask of the line, where it is a `command` line.
fn read_command(alloc: Global, graph: &Graph, line: &[u8]) -> Result<Option<Ask>, NoMemory>
    ensures { IfOk result (Finds (λ ask. IsValid graph.now (Command ask)) (λ ask. spelled graph.now (Command ask)) line.now) }
{
    graph.known();
    let found = read_line(alloc, graph, line)?;
    Ok(command_of(&found))
}

/// The certificate whose text is at the front of the bytes, and how many bytes its text has.
pub fn read_cert(alloc: Global, graph: &Graph, bytes: &[u8]) -> Result<(Cert, usize), CertRefusal>
    ensures ok { IfOk result (λ found. IsAtFront graph.now bytes.now found.0 found.1) }
    ensures bad { IfErr result (IsRefused graph.now bytes.now) }
{
    graph.known();
    let Some((first, after)) = whole_line(bytes) else {
        return Err(CertRefusal::Bad { line: 1 });
    };
    let Ok(title) = reads_title(alloc, graph, first) else {
        return Err(CertRefusal::NoMemory);
    };
    if !title {
        return Err(CertRefusal::Bad { line: 1 });
    }
    let Some((second, rest)) = whole_line(after) else {
        return Err(CertRefusal::Bad { line: 2 });
    };
    let Ok(command) = read_command(alloc, graph, second) else {
        return Err(CertRefusal::NoMemory);
    };
    let Some(ask) = command else {
        return Err(CertRefusal::Bad { line: 2 });
    };
    read_rows(alloc, graph, ask, bytes, rest)
}
