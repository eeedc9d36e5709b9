ghost use Rattle.std.specs.Prelude.{◌≡◌, ◌++◌, ◌∷◌, map, IfOk, OnOk};
ghost use Rattle.trs_core.specs.View.{tree};
ghost use Rattle.completion.specs.Endings.{Done, Unorientable};
ghost use Rattle.completion_text.specs.CompletionText.{ending_text};

use ari_text::print_problem;
use names_text::{NamedTrs, underscores};
use std::alloc::Global;
use term_text::put_term;
use trs_core::{OutOfMemory, Term, Trs};

/// The line `COMPLETE`, and the problem text of the rules over the symbols of a system.
#[tactic(auto, using(crate::proofs::Completed::complete_text))]
pub(crate) fn print_system(
    alloc: Global,
    system: &NamedTrs,
    rules: Trs,
) -> Result<Vec<u8>, OutOfMemory>
    requires { rules.arities ≡ system.now.system.arities }
    ensures { IfOk result (λ text. text.items ≡ ending_text system.now (Done rules.rules)) }
{
    let names = names_of(alloc, system)?;
    // Rules of completion fit the names, so only memory can have run out.
    let Ok(completed) = NamedTrs::new(alloc, names, rules) else {
        return Err(OutOfMemory);
    };
    let mut out = Vec::from_slice(alloc, b"COMPLETE\n")?;
    out.extend_from_slice(&print_problem(alloc, &completed)?)?;
    Ok(out)
}

/// The names of the symbols of a system, in order.
#[tactic(auto, using(crate::proofs::Names::next_name, crate::proofs::Names::all_named))]
fn names_of(alloc: Global, system: &NamedTrs) -> Result<Vec<Vec<u8>>, OutOfMemory>
    ensures { IfOk result (λ names. map (λ n. n.items) names.items ≡ system.now.names) }
{
    let mut names = Vec::new(alloc);
    for f in 0..system.symbols() {
        names.push(Vec::from_slice(alloc, system.name(f))?)?;
    }
    Ok(names)
}

/// The line of two terms that the equations convert, of which neither is greater.
pub(crate) fn print_terms(
    alloc: Global,
    system: &NamedTrs,
    s: &Term,
    t: &Term,
) -> Result<Vec<u8>, OutOfMemory>
    ensures { IfOk result (λ text.
        text.items ≡ ending_text system.now (Unorientable (tree s.now) (tree t.now))) }
{
    let underscores = underscores(system);
    let mut out = Vec::from_slice(alloc, b"UNORIENTABLE ")?;
    put_term(&mut out, system, underscores, s)?;
    out.push(b' ')?;
    put_term(&mut out, system, underscores, t)?;
    out.push(b'\n')?;
    Ok(out)
}
