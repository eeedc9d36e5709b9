//! The reduct of an outer left side by the inner rule.
ghost use Rattle.std.specs.Prelude.{◌≡◌, ◌≢◌, ◌<◌, ◌++◌, All, IfOk, OnOk, Some, None};
ghost use Rattle.trs_defs.specs.Position.{subterm_at, replaced_at};
ghost use Rattle.trs_core.specs.SystemLimits.{HasSmallVariables};
ghost use Rattle.trs_core.specs.View.{tree};
ghost use Rattle.crit_pairs.specs.Apart.{renamed_apart};
ghost use Rattle.crit_pairs.specs.Around.{IsSameAround};

use std::alloc::Global;
use trs_core::{Args, MOST_VARIABLES, OutOfMemory, Position, Rule, Term};
use trs_unify::rename_apart;

/// The outer left side with the inner right side, renamed apart, at the place.
pub(crate) fn contract(
    alloc: Global,
    outer: &Rule,
    place: &[u8],
    inner: &Rule,
) -> Result<Term, OutOfMemory>
    requires there { subterm_at place.now outer.now.left ≢ None }
    requires positive { All (λ n. 0 < n) place.now }
    requires small { HasSmallVariables inner.now.right }
    ensures { IfOk result (λ u. replaced_at place.now outer.now.left
        (renamed_apart inner.now).right ≡ Some (tree u)) }
{
    let right = rename_apart(alloc, &inner.right, MOST_VARIABLES)?;
    if place.is_empty() {
        return Ok(right);
    }
    let mut reduct = copy_around(alloc, &outer.left, place)?;
    reduct.put(&Position::of(alloc, place)?, right);
    Ok(reduct)
}

/// A copy of a term with a variable at the place: what stands there is not copied.
fn copy_around(alloc: Global, t: &Term, place: &[u8]) -> Result<Term, OutOfMemory>
    ensures { IfOk result (λ u. IsSameAround place.now (tree t.now) (tree u)) }
{
    let [first, below @ ..] = place else {
        return Ok(Term::Var(0));
    };
    match t {
        Term::Var(_) => t.copy(alloc),
        Term::App(f, args) => {
            let count = args.items.len();
            let index = usize::from(*first);
            if index == 0 || count < index {
                return t.copy(alloc);
            }
            let mut items = Vec::with_capacity(alloc, count)?;
            push_copies(alloc, &args.items[..index - 1], &mut items)?;
            items.push(copy_around(alloc, &args.items[index - 1], below)?)?;
            push_copies(alloc, &args.items[index..], &mut items)?;
            Ok(Term::App(*f, Args { items }))
        }
    }
}

/// Adds copies of terms to a list.
fn push_copies(alloc: Global, terms: &[Term], list: &mut Vec<Term>) -> Result<(), OutOfMemory>
    ensures { OnOk result (list.new.items ≡ list.old.items ++ terms.now) }
{
    for t in terms {
        list.push(t.copy(alloc)?)?;
    }
    Ok(())
}
