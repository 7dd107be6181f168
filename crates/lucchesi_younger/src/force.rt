ghost use Rattle.std.specs.Prelude.{◌≡◌, IfOk, OnOk, true};
ghost use Rattle.graph_core.specs.Side.{has};
ghost use Rattle.lucchesi_younger.specs.Kept.{IsKept};
ghost use Rattle.lucchesi_younger.specs.Search.{IsSearch, IsForced, node};
ghost use Rattle.lucchesi_younger.specs.Ways.{IsWay};

use crate::held::Held;
use crate::scan::{scan_place, try_jump};
use crate::search::Search;
use crate::work::{By, Forced, Step, Task};
use graph_core::{Items, NoMemory};
use std::alloc::Global;

/// Begins a search at the head of the late arc. Most often a jump leads to its tail at once.
fn begin(alloc: Global, task: &Task, held: &mut Held) -> Result<Search, NoMemory>
    requires kept { IsKept task.now.graph.now task.now.work.now task.now.late }
    requires held { held.old.kernels ≡ record { graph = task.now.graph.now; join = task.now.work.now.join } }
    ensures held { OnOk result (held.new.kernels ≡ held.old.kernels) }
    ensures search { IfOk result (λ s. IsSearch task.now.graph.now task.now.work.now task.now.late s.reached s.visits.items 0) }
    ensures start { IfOk result (λ s. node s.visits.items 0 ≡ task.now.line.head) }
{
    task.graph.known();
    let line = task.line;
    let step = Step {
        by: By::Left(task.late as u32),
        from: line.tail,
        to: line.head,
    };
    let mut search = Search::start(alloc, task.graph.node_count(), step)?;
    try_jump(alloc, task, held, &mut search, 0, line.tail)?;
    Ok(search)
}

/// The steps by which the search came to a node, the last one first.
fn way_to(alloc: Global, task: &Task, search: &Search, wanted: u32) -> Result<Items<Step>, NoMemory>
    requires search { IsSearch task.now.graph.now task.now.work.now task.now.late search.now.reached search.now.visits.items 0 }
    requires wanted { has search.now.reached wanted ≡ true }
    ensures { IfOk result (λ steps. IsWay task.now.graph.now task.now.work.now task.now.late (node search.now.visits.items 0) wanted steps) }
{
    let _late = task.late;
    let mut steps = Items::new(alloc);
    let mut at = search.place_of(wanted);
    'back: while at != 0 {
        let visit = search.visits[at];
        steps.push(visit.step)?;
        at = visit.back;
    }
    Ok(steps)
}

/// What is forced where the potential of the late arc's head rises by one.
pub(crate) fn find_forced(alloc: Global, task: &Task, held: &mut Held) -> Result<Forced, NoMemory>
    requires kept { IsKept task.now.graph.now task.now.work.now task.now.late }
    requires held { held.old.kernels ≡ record { graph = task.now.graph.now; join = task.now.work.now.join } }
    ensures held { OnOk result (held.new.kernels ≡ held.old.kernels) }
    ensures forced { IfOk result (IsForced task.now.graph.now task.now.work.now task.now.late task.now.line) }
{
    task.graph.known();
    let tail = task.line.tail;
    let mut search = begin(alloc, task, held)?;
    if search.reached.has(tail) {
        let way = way_to(alloc, task, &search, tail)?;
        return Ok(Forced::Way(way));
    }
    let mut place = 0;
    'places: while place < search.visits.len() {
        if scan_place(alloc, task, held, &mut search, place, tail)? {
            let way = way_to(alloc, task, &search, tail)?;
            return Ok(Forced::Way(way));
        }
        place += 1;
    }
    Ok(Forced::Shut(search.reached))
}
