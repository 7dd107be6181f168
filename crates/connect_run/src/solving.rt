ghost use Rattle.std.specs.Prelude.{◌≡◌, ◌↔◌, IfOk, None};
ghost use Rattle.graph_core.specs.Graph.{IsWithinSize};
ghost use Rattle.problem_defs.specs.Ask.{misfit_of, KIsInRange};
ghost use Rattle.problem_defs.specs.Impossible.{IsImpossible, IsNever};
ghost use Rattle.problem_defs.specs.Meets.{Meets};

use graph_core::{Graph, NoMemory};
use problem_defs::{Ask, Body, Cert, certificate, dijoin_certificate, orientation_certificate};
use std::alloc::Global;

// The answer of the ask's solver.
fn solved(alloc: Global, graph: &Graph, ask: &Ask) -> Result<Cert, NoMemory>
    requires size { IsWithinSize graph.now }
    requires k { KIsInRange ask.now }
    requires suits { misfit_of graph.now ask.now ≡ None }
    ensures ask { IfOk result (λ cert. cert.ask ≡ ask.now) }
    ensures meets { IfOk result (λ cert. Meets graph.now cert) }
{
    graph.known();
    match *ask {
        Ask::Flow { from, to } => Ok(certificate(
            graph,
            flow_cuts::most_walks(alloc, graph, from, to)?,
        )),
        Ask::CutTree => Ok(Cert {
            ask: Ask::CutTree,
            body: Body::Tree(cut_trees::cut_tree(alloc, graph)?),
        }),
        Ask::Augment { k } => Ok(certificate(graph, augment_edges::augment(alloc, graph, k)?)),
        Ask::AugmentArcs { k } => Ok(certificate(
            graph,
            augment_arcs::augment_arcs(alloc, graph, k)?,
        )),
        Ask::Arborescences { root } => Ok(certificate(
            graph,
            edmonds_branchings::pack_arborescences(alloc, graph, root)?,
        )),
        Ask::Trees => Ok(certificate(graph, tree_packing::pack_trees(alloc, graph)?)),
        Ask::Forests => Ok(certificate(graph, forest_cover::cover_forests(alloc, graph)?)),
        Ask::Orient { k } => Ok(orientation_certificate(
            graph,
            k,
            nw_orientation::orient(alloc, graph, k)?,
        )),
        Ask::Dijoin => Ok(dijoin_certificate(graph, lucchesi_younger::dijoin(alloc, graph)?)),
    }
}

/// A best object for the ask with the dual that proves it best, or a side that forbids every object.
pub fn solve(alloc: Global, graph: &Graph, ask: &Ask) -> Result<Cert, NoMemory>
    requires size { IsWithinSize graph.now }
    requires k { KIsInRange ask.now }
    requires suits { misfit_of graph.now ask.now ≡ None }
    ensures ask { IfOk result (λ cert. cert.ask ≡ ask.now) }
    ensures meets { IfOk result (λ cert. Meets graph.now cert) }
    ensures never { IfOk result (λ cert. IsNever cert.body ↔ IsImpossible graph.now ask.now) }
{
    graph.known();
    let cert = solved(alloc, graph, ask)?;
    Ok(cert)
}
