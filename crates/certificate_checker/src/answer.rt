ghost use Rattle.std.specs.Prelude.{◌≡◌, ◌≤◌, true, length, OnOk, IfErr};
ghost use Rattle.problem_defs.specs.Claims.{claims};
ghost use Rattle.problem_defs.specs.Shaped.{IsShaped};
ghost use Rattle.problem_defs.specs.declared.cert.Body.TheVariants.{Arcs, Join, Never, Parts};
ghost use Rattle.certificate_text.specs.BadLine.{whole_lines};
ghost use Rattle.certificate_checker.specs.Accepted.{IsAccepted};
ghost use Rattle.certificate_checker.specs.FirstLack.{FirstLack};
ghost use Rattle.certificate_checker.specs.Reason.{IsReason};

use crate::cut_tree::judge_cut_tree;
use crate::decide::Judge;
use crate::dijoin::judge_no_dijoin;
use crate::orient::{judge_no_orientation, judge_orientation};
use crate::rejection::Rejection;
use certificate_text::{CertRefusal, read_cert};
use graph_core::{Graph, NumberRows, Numbers, Pairs, Side, Sides};
use problem_defs::{
    ArborescencesAsk, Ask, AugmentArcsAsk, AugmentAsk, Body, Cert, DijoinAsk, Family, FlowAsk,
    ForestDual, ForestsAsk, PartsDual, TreesAsk,
};
use std::alloc::Global;

/// How many lines the bytes have, each with its LF.
fn line_count(bytes: &[u8]) -> usize
    ensures count { result ≡ length (whole_lines bytes.now) }
    ensures few { result ≤ length bytes.now }
{
    bytes.iter().filter(|byte| **byte == b'\n').count()
}

/// Judges a packing or a cover.
fn judge_packing(
    on: &Judge<'_>,
    ask: Ask,
    value: u64,
    rows: NumberRows,
    dual: PartsDual,
) -> Result<(), Rejection>
    requires shaped { IsShaped on.now.graph.now (record { ask = ask; body = Parts value rows dual }) }
    ensures { FirstLack (claims on.now.graph.now ask (Parts value rows dual)) result }
{
    match (ask, dual) {
        (Ask::Arborescences { root }, PartsDual::Cut(side)) => {
            on.answer(&ArborescencesAsk { root }, value, &rows, &side)
        }
        (Ask::Trees, PartsDual::Partition(classes)) => on.answer(&TreesAsk, value, &rows, &classes),
        (Ask::Forests, PartsDual::Induced(side)) => {
            on.answer(&ForestsAsk, value, &rows, &ForestDual::Induced(side))
        }
        (Ask::Forests, PartsDual::Nothing) => {
            on.answer(&ForestsAsk, value, &rows, &ForestDual::Nothing)
        }
        _ => unreachable!("the dual belongs to the ask"),
    }
}

/// Judges new arcs.
fn judge_arcs(
    on: &Judge<'_>,
    ask: Ask,
    value: u64,
    pairs: &Pairs,
    family: &Family,
) -> Result<(), Rejection>
    requires shaped { IsShaped on.now.graph.now (record { ask = ask; body = Arcs value pairs.now family.now.way family.now.sides }) }
    ensures { FirstLack (claims on.now.graph.now ask (Arcs value pairs.now family.now.way family.now.sides)) result }
{
    match ask {
        Ask::AugmentArcs { k } => on.answer(&AugmentArcsAsk { k }, value, pairs, family),
        _ => unreachable!("the body belongs to the ask"),
    }
}

/// Judges a dijoin.
fn judge_join(
    on: &Judge<'_>,
    ask: Ask,
    value: u64,
    numbers: &Numbers,
    sides: &Sides,
) -> Result<(), Rejection>
    requires shaped { IsShaped on.now.graph.now (record { ask = ask; body = Join value numbers.now sides.now }) }
    ensures { FirstLack (claims on.now.graph.now ask (Join value numbers.now sides.now)) result }
{
    match ask {
        Ask::Dijoin => on.answer(&DijoinAsk, value, numbers, sides),
        _ => unreachable!("the body belongs to the ask"),
    }
}

/// Judges a side that is to forbid every object.
fn judge_never(graph: &Graph, ask: Ask, side: &Side) -> Result<(), Rejection>
    requires shaped { IsShaped graph.now (record { ask = ask; body = Never side.now }) }
    ensures { FirstLack (claims graph.now ask (Never side.now)) result }
{
    match ask {
        Ask::Orient { k } => judge_no_orientation(graph, k, side),
        Ask::Dijoin => judge_no_dijoin(graph, side),
        _ => unreachable!("the body belongs to the ask"),
    }
}

/// Judges what a certificate says of the graph.
fn judge(alloc: Global, graph: &Graph, cert: Cert) -> Result<(), Rejection>
    requires shaped { IsShaped graph.now cert }
    ensures { FirstLack (claims graph.now cert.ask cert.body) result }
{
    let Cert { ask, body } = cert;
    let on = Judge { alloc, graph };
    match body {
        Body::Tree(pairs) => judge_cut_tree(alloc, graph, &pairs),
        Body::Walks { value, rows, cut } => match ask {
            Ask::Flow { from, to } => on.answer(&FlowAsk { from, to }, value, &rows, &cut),
            _ => unreachable!("the body belongs to the ask"),
        },
        Body::Edges {
            value,
            pairs,
            sides,
        } => match ask {
            Ask::Augment { k } => on.answer(&AugmentAsk { k }, value, &pairs, &sides),
            _ => unreachable!("the body belongs to the ask"),
        },
        Body::Arcs {
            value,
            pairs,
            way,
            sides,
        } => judge_arcs(&on, ask, value, &pairs, &Family { way, sides }),
        Body::Join {
            value,
            numbers,
            sides,
        } => judge_join(&on, ask, value, &numbers, &sides),
        Body::Parts { value, rows, dual } => judge_packing(&on, ask, value, rows, dual),
        Body::Turned(heads) => match ask {
            Ask::Orient { k } => judge_orientation(alloc, graph, k, &heads),
            _ => unreachable!("the body belongs to the ask"),
        },
        Body::Never(side) => judge_never(graph, ask, &side),
    }
}

/// Whether the bytes are the text of a certificate that meets the graph, with nothing after it.
pub fn check(alloc: Global, graph: &Graph, bytes: &[u8]) -> Result<(), Rejection>
    ensures accepted { OnOk result (IsAccepted graph.now bytes.now) }
    ensures rejected { IfErr result (IsReason graph.now bytes.now) }
{
    graph.known();
    let (cert, count) = match read_cert(alloc, graph, bytes) {
        Ok(found) => found,
        Err(CertRefusal::Bad { line }) => return Err(Rejection::Malformed { line }),
        Err(CertRefusal::NoMemory) => return Err(Rejection::NoMemory),
    };
    if count < bytes.len() {
        let line = line_count(&bytes[..count]) + 1;
        return Err(Rejection::Malformed { line });
    }
    judge(alloc, graph, cert)
}
