ghost use Rattle.std.specs.Prelude.{◌≡◌, ◌≤◌, IfOk};
ghost use Rattle.sampling.specs.Family.{sample};

use crate::rules::rules;
use crate::symbols::{arities, names};
use names_text::{NamedTrs, NamesFault};
use std::alloc::Global;
use trs_core::{OutOfMemory, Trs, TrsFault};

/// The sample system of a number, with `2 n` rules and `1 + 2 (n - 1)` dependency pairs. Its
/// symbols are `0`, `s`, and `f0` to `f(n-1)`, which have two arguments each. For each i from 0 it
/// has the rule `(fi 0 y) -> y`, and then, for i = 0, `(f0 (s x) y) -> (s (f0 x y))`, and for a
/// later one `(fi (s x) y) -> (fi x (f(i-1) y y))`.
pub fn sample_system(alloc: Global, n: u32) -> Result<NamedTrs, OutOfMemory>
    requires { (1 ≤ n) × (n ≤ 512) }
    ensures { IfOk result (λ s. s ≡ sample n) }
{
    let trs = sample_trs(alloc, n)?;
    let names = names(alloc, n)?;
    match NamedTrs::new(alloc, names, trs) {
        Ok(named) => Ok(named),
        Err(NamesFault::OutOfMemory) => Err(OutOfMemory),
        Err(_) => unreachable!(),
    }
}

fn sample_trs(alloc: Global, n: u32) -> Result<Trs, OutOfMemory>
    requires { n ≤ 512 }
    ensures { IfOk result (λ s. s ≡ (sample n).system) }
{
    let arities = arities(alloc, n)?;
    let rules = rules(alloc, n)?;
    match Trs::new(arities, rules) {
        Ok(trs) => Ok(trs),
        Err(TrsFault::OutOfMemory) => Err(OutOfMemory),
        Err(_) => unreachable!(),
    }
}
