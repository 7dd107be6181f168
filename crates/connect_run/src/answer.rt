ghost use Rattle.std.specs.Prelude.{ℕ, List, ◌≡◌, ◌⊎◌, Some, None, true, map, string_bytes, IfOk};
ghost use Rattle.graph_core.specs.Graph.{IsWithinSize};
ghost use Rattle.problem_defs.specs.Ask.{misfit_of, KIsInRange};
ghost use Rattle.problem_defs.specs.declared.ask.Ask.{Ask as AskValue};
ghost use Rattle.problem_defs.specs.declared.ask.Misfit.{Misfit as MisfitValue};
ghost use Rattle.connect_words.specs.Asks.{asked};
ghost use Rattle.connect_words.specs.Commands.{Solves, Writes};
ghost use Rattle.connect_run.specs.Reading.{reads_input};
ghost use Rattle.connect_run.specs.Answer.{AnswersGraph, AnswersInput};
ghost use Rattle.connect_run.specs.CheckCase.{AnswersCheck};
ghost use Rattle.connect_run.specs.SolvedCase.{verdict, AnswersSolved};
ghost use Rattle.connect_run.specs.Saying.{TellsFault, Says, Replies};

use crate::lines::{fault_line, rejected_line, unsuited_line};
use crate::{Status, solve};
use certificate_checker::{Rejection, check};
use certificate_text::write_cert;
use cn_edge::{Sink, write_all};
use connect_words::{Command, ask_of};
use graph_core::{Graph, NoMemory};
use graph_text::{GraphRefusal, read_graph, read_graph_alone};
use problem_defs::{Ask, Body, Cert};
use std::alloc::Global;

// The text of a certificate, and its status.
#[derive(Drop)]
struct SolvedText {
    status: Status,
    text: Vec<u8>,
}

/// Writes the text, and answers the status where it was written whole.
pub fn say<K: Sink>(sink: &mut K, status: Status, text: &[u8]) -> Status
    requires write { status ≡ Status.WriteFault → ⊥ }
    requires read { status ≡ Status.ReadFault → ⊥ }
    requires memory { status ≡ Status.NoMemory → ⊥ }
    ensures said { Says (K.written sink.old) (K.written sink.new) text.now status result }
    ensures write { TellsFault (K.faults sink.old) (K.faults sink.new) Status.WriteFault result }
    ensures unwritten { (result ≡ Status.ReadFault) ⊎ (result ≡ Status.NoMemory) → sink.new ≡ sink.old }
{
    match write_all(sink, text) {
        Ok(()) => status,
        Err(_) => Status::WriteFault,
    }
}

/// Answers an input that isn't too long.
pub fn reply<K: Sink>(
    alloc: Global,
    command: &Command,
    words: &[String],
    input: &[u8],
    sink: &mut K,
) -> Status
    requires commands { Writes command.now (map string_bytes words.now) }
    requires reads { reads_input command.now ≡ true }
    ensures replies { Replies (AnswersInput command.now (map string_bytes words.now) input.now) (K.written sink.old) (K.written sink.new) result }
    ensures write { TellsFault (K.faults sink.old) (K.faults sink.new) Status.WriteFault result }
    ensures unwritten { (result ≡ Status.ReadFault) ⊎ (result ≡ Status.NoMemory) → sink.new ≡ sink.old }
{
    match command {
        Command::Check => reply_to_check(alloc, input, sink),
        _ => reply_to_text(alloc, command, words, input, sink),
    }
}

// Answers an input that is to be solved.
fn reply_to_text<K: Sink>(
    alloc: Global,
    command: &Command,
    words: &[String],
    input: &[u8],
    sink: &mut K,
) -> Status
    requires commands { Writes command.now (map string_bytes words.now) }
    requires solves { Solves command.now }
    ensures replies { Replies (AnswersInput command.now (map string_bytes words.now) input.now) (K.written sink.old) (K.written sink.new) result }
    ensures write { TellsFault (K.faults sink.old) (K.faults sink.new) Status.WriteFault result }
    ensures unwritten { (result ≡ Status.ReadFault) ⊎ (result ≡ Status.NoMemory) → sink.new ≡ sink.old }
{
    match read_graph_alone(alloc, input) {
        Ok(graph) => reply_to_graph(alloc, command, words, &graph, sink),
        Err(GraphRefusal::Fault { line, why }) => {
            let (status, text) = fault_line(line, why);
            say(sink, status, text.as_slice())
        }
        Err(GraphRefusal::NoMemory) => Status::NoMemory,
    }
}

// Answers an input that is to be checked.
fn reply_to_check<K: Sink>(alloc: Global, input: &[u8], sink: &mut K) -> Status
    ensures replies { (words : List (List ℕ)) → Replies (AnswersInput Command.Check words input.now) (K.written sink.old) (K.written sink.new) result }
    ensures write { TellsFault (K.faults sink.old) (K.faults sink.new) Status.WriteFault result }
    ensures unwritten { (result ≡ Status.ReadFault) ⊎ (result ≡ Status.NoMemory) → sink.new ≡ sink.old }
{
    match read_graph(alloc, input) {
        Ok((graph, count)) => reply_to_certificate(alloc, &graph, &input[count..], sink),
        Err(GraphRefusal::Fault { line, why }) => {
            let (status, text) = fault_line(line, why);
            say(sink, status, text.as_slice())
        }
        Err(GraphRefusal::NoMemory) => Status::NoMemory,
    }
}

// Accepts or rejects what follows a graph.
fn reply_to_certificate<K: Sink>(alloc: Global, graph: &Graph, bytes: &[u8], sink: &mut K) -> Status
    ensures replies { Replies (AnswersCheck graph.now bytes.now) (K.written sink.old) (K.written sink.new) result }
    ensures write { TellsFault (K.faults sink.old) (K.faults sink.new) Status.WriteFault result }
    ensures unwritten { (result ≡ Status.ReadFault) ⊎ (result ≡ Status.NoMemory) → sink.new ≡ sink.old }
{
    match check(alloc, graph, bytes) {
        Ok(()) => say(sink, Status::Done, b"accepted\n"),
        Err(Rejection::NoMemory) => Status::NoMemory,
        Err(why) => {
            let text = rejected_line(why);
            say(sink, Status::Rejected, text.as_slice())
        }
    }
}

// Answers a graph. That the ask doesn't suit it is told whether or not memory is left.
fn reply_to_graph<K: Sink>(
    alloc: Global,
    command: &Command,
    words: &[String],
    graph: &Graph,
    sink: &mut K,
) -> Status
    requires commands { Writes command.now (map string_bytes words.now) }
    requires solves { Solves command.now }
    requires size { IsWithinSize graph.now }
    ensures replies { Replies (AnswersGraph command.now (map string_bytes words.now) graph.now) (K.written sink.old) (K.written sink.new) result }
    ensures write { TellsFault (K.faults sink.old) (K.faults sink.new) Status.WriteFault result }
    ensures unwritten { (result ≡ Status.ReadFault) ⊎ (result ≡ Status.NoMemory) → sink.new ≡ sink.old }
    ensures unsuited { (ask : AskValue) (misfit : MisfitValue) → asked graph.now (map string_bytes words.now) command.now ≡ Some ask
        → misfit_of graph.now ask ≡ Some misfit → (result ≡ Status.Unsuited) ⊎ (result ≡ Status.WriteFault) }
{
    match ask_of(graph, command, words) {
        Ok(ask) => match solved_text(alloc, graph, &ask) {
            Ok(solved) => say(sink, solved.status, &solved.text),
            Err(NoMemory) => Status::NoMemory,
        },
        Err(misfit) => {
            let text = unsuited_line(misfit);
            say(sink, Status::Unsuited, text.as_slice())
        }
    }
}

fn solved_text(alloc: Global, graph: &Graph, ask: &Ask) -> Result<SolvedText, NoMemory>
    requires size { IsWithinSize graph.now }
    requires k { KIsInRange ask.now }
    requires suits { misfit_of graph.now ask.now ≡ None }
    ensures { IfOk result (λ found. AnswersSolved graph.now ask.now found.text.items found.status) }
{
    graph.known();
    let cert = solve(alloc, graph, ask)?;
    let text = write_cert(alloc, graph, &cert)?;
    Ok(SolvedText {
        status: verdict(&cert),
        text,
    })
}

/// The status of a certificate.
pub fn verdict(cert: &Cert) -> Status
    ensures { result ≡ verdict cert.now.body }
{
    match cert.body {
        Body::Never(_) => Status::Impossible,
        _ => Status::Done,
    }
}
