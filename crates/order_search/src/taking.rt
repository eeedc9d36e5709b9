//! The pairs of a problem.
ghost use Rattle.std.specs.Prelude.{◌≡◌, ◌<◌, All, IfOk, length};
ghost use Rattle.dp_core.specs.Numbered.{ArePairsOf};

use dp_core::{Side, Sides};
use std::alloc::Global;
use trs_core::OutOfMemory;

/// The pairs of these numbers, in order.
pub fn take_pairs<'a>(
    alloc: Global,
    pairs: &[Sides<'a>],
    problem: &[u32],
) -> Result<Vec<Sides<'a>>, OutOfMemory>
    requires { All (λ n. n < length pairs.now) problem.now }
    ensures { IfOk result (λ taken. ArePairsOf pairs.now problem.now taken.items) }
{
    let mut taken = Vec::with_capacity(alloc, problem.len())?;
    for n in problem {
        let sides = &pairs[*n as usize];
        taken.push(lend(sides))?;
    }
    Ok(taken)
}

/// The same pair.
fn lend<'a>(sides: &Sides<'a>) -> Sides<'a>
    ensures { result ≡ sides.now }
{
    Sides {
        from: lend_side(&sides.from),
        to: lend_side(&sides.to),
    }
}

fn lend_side<'a>(side: &Side<'a>) -> Side<'a>
    ensures { result ≡ side.now }
{
    Side {
        symbol: side.symbol,
        args: side.args,
    }
}
