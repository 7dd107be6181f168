ghost use Rattle.std.specs.Prelude.{◌≡◌, ◌++◌, replicate, IfOk, OnOk};
ghost use Rattle.graph_core.specs.Pairs.{pairs_of};

use crate::{NoMemory, Pairs};
use std::alloc::Global;

/// Puts `q` pairs of `u` and `v` at the end.
fn push_copies(pairs: &mut Pairs, u: u32, v: u32, q: u64) -> Result<(), NoMemory>
    ensures { OnOk result (pairs.new ≡ pairs.old ++ replicate q (u, v)) }
{
    for _i in 0..q {
        pairs.push((u, v))?;
    }
    Ok(())
}

/// The pairs that rows stand for.
pub fn written_out(alloc: Global, rows: &[(u32, u32, u64)]) -> Result<Pairs, NoMemory>
    ensures { IfOk result (λ pairs. pairs ≡ pairs_of rows.now) }
{
    let mut pairs = Pairs::new(alloc);
    for (u, v, q) in rows {
        push_copies(&mut pairs, *u, *v, *q)?;
    }
    Ok(pairs)
}
