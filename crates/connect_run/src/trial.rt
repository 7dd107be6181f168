ghost use Rattle.std.specs.Prelude.{◌≡◌, ◌⊎◌, IfOk};
ghost use Rattle.problem_defs.specs.Best.{IsBest};
ghost use Rattle.problem_defs.specs.Meets.{Meets};
ghost use Rattle.connect_words.specs.Commands.{IsNodes};
ghost use Rattle.connect_words.specs.Trials.{trial_ask};
ghost use Rattle.connect_run.specs.TrialCase.{AnswersTrial, trial_graph};
ghost use Rattle.connect_run.specs.Saying.{TellsFault, Replies};

use crate::answer::{say, verdict};
use crate::lines::trial_line;
use crate::{Status, solve};
use cn_edge::Sink;
use connect_gen::make;
use connect_words::{TrialKind, graph_kind, trial_ask};
use graph_core::NoMemory;
use problem_defs::Cert;
use std::alloc::Global;

/// Answers a trial.
pub fn reply_to_trial<K: Sink>(
    alloc: Global,
    kind: TrialKind,
    nodes: u32,
    number: u32,
    sink: &mut K,
) -> Status
    requires { IsNodes nodes }
    ensures replies { Replies (AnswersTrial kind nodes number) (K.written sink.old) (K.written sink.new) result }
    ensures write { TellsFault (K.faults sink.old) (K.faults sink.new) Status.WriteFault result }
    ensures unwritten { (result ≡ Status.ReadFault) ⊎ (result ≡ Status.NoMemory) → sink.new ≡ sink.old }
{
    match solved_trial(alloc, kind, nodes, number) {
        Ok(cert) => {
            let text = trial_line(&cert.body);
            say(sink, verdict(&cert), text.as_slice())
        }
        Err(NoMemory) => Status::NoMemory,
    }
}

// The certificate for the graph that is made for the trial.
fn solved_trial(alloc: Global, kind: TrialKind, nodes: u32, number: u32) -> Result<Cert, NoMemory>
    requires { IsNodes nodes }
    ensures asks { IfOk result (λ cert. cert.ask ≡ trial_ask kind nodes) }
    ensures meets { IfOk result (λ cert. Meets (trial_graph kind nodes number) cert) }
    ensures best { IfOk result (λ cert. IsBest (trial_graph kind nodes number) cert.ask cert.body) }
{
    let graph = make(alloc, graph_kind(kind), nodes, number)?;
    graph.known();
    let cert = solve(alloc, &graph, &trial_ask(kind, nodes))?;
    Ok(cert)
}
