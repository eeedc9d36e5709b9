ghost use Rattle.std.specs.Prelude.{◌≡◌, ◌≢◌, IfOk, IfErr, OnOk, IfSome, IfNone, IsTrue, false};
ghost use Rattle.trs_defs.specs.Tree.{var};
ghost use Rattle.trs_defs.specs.Size.{size_of, within_limits};
ghost use Rattle.trs_defs.specs.Substitution.{apply};
ghost use Rattle.trs_defs.specs.Variable.{with_variables};
ghost use Rattle.trs_core.specs.View.{tree};
ghost use Rattle.trs_unify.specs.Bindings.{stopped_size, stopped_depth};
ghost use Rattle.trs_unify.specs.Renamed.{IsRenamed};
ghost use Rattle.crit_pairs.specs.Meeting.{put_in, solution};
ghost use Rattle.crit_pairs.specs.Sides.{IsDistinct};

use crate::binding_table::{Bindings, bound_size};
use crate::names::Names;
use std::alloc::Global;
use trs_core::{Args, GREATEST_DEPTH, MOST_NODES, OutOfMemory, Term};

/// The number of nodes of an instance. `None` exactly where the instance passes the limits on
/// computed terms. An instance with few nodes is not deep.
#[tactic(auto, using(crate::proofs::CountedPeaks::few_are_small))]
pub(crate) fn small_size(bindings: &Bindings, t: &Term) -> Option<u64>
    ensures large { IfNone result
        (within_limits (apply (solution bindings.now) (tree t.now)) ≡ false) }
    ensures small { IfSome result (λ _.
        IsTrue (within_limits (apply (solution bindings.now) (tree t.now)))) }
    ensures size { IfSome result (λ n.
        n ≡ size_of (apply (solution bindings.now) (tree t.now))) }
{
    let size = size(bindings, t, bindings.levels);
    if size <= GREATEST_DEPTH {
        return Some(size);
    }
    if size <= MOST_NODES && depth(bindings, t, bindings.levels) <= GREATEST_DEPTH {
        Some(size)
    } else {
        None
    }
}

/// The number of nodes of an instance. It stands still at the last `u64`.
pub(crate) fn size(bindings: &Bindings, t: &Term, levels: u32) -> u64
    ensures { result ≡ stopped_size (apply (put_in levels bindings.now.list.items) (tree t.now)) }
{
    match t {
        Term::Var(v) => match bindings.find(*v) {
            None => 1,
            Some(bound) => {
                if levels == 0 {
                    return bound_size(bound);
                }
                size(bindings, bound, levels - 1)
            }
        },
        Term::App(_, args) => {
            let mut total: u64 = 1;
            for arg in &args.items {
                total = total.saturating_add(size(bindings, arg, levels));
            }
            total
        }
    }
}

/// The number of nodes on the longest branch of an instance. It stands still at the last `u64`.
pub(crate) fn depth(bindings: &Bindings, t: &Term, levels: u32) -> u64
    ensures { result ≡ stopped_depth (apply (put_in levels bindings.now.list.items) (tree t.now)) }
{
    match t {
        Term::Var(v) => match bindings.find(*v) {
            None => 1,
            Some(bound) => {
                if levels == 0 {
                    return bound.depth();
                }
                depth(bindings, bound, levels - 1)
            }
        },
        Term::App(_, args) => {
            let mut deepest: u64 = 0;
            for arg in &args.items {
                deepest = deepest.max(depth(bindings, arg, levels));
            }
            deepest.saturating_add(1)
        }
    }
}

/// The instance of a term, with new numbers for its variables: those that are not yet among the
/// names come behind them as they are met.
pub(crate) fn renumber(
    alloc: Global,
    bindings: &Bindings,
    t: &Term,
    levels: u32,
    names: &mut Names,
) -> Result<Term, OutOfMemory>
    requires { IsDistinct names.old.order.items }
    ensures distinct { OnOk result (IsDistinct names.new.order.items) }
    ensures renamed { IfOk result (λ u. IsRenamed names.old.order.items names.new.order.items
        (apply (put_in levels bindings.now.list.items) (tree t.now)) (tree u)) }
{
    match t {
        Term::Var(v) => match bindings.find(*v) {
            None => number_variable(*v, names),
            Some(bound) => {
                if levels == 0 {
                    return number_variables(alloc, bound, names);
                }
                renumber(alloc, bindings, bound, levels - 1, names)
            }
        },
        Term::App(f, args) => {
            let mut built = Vec::with_capacity(alloc, args.items.len())?;
            for arg in &args.items {
                built.push(renumber(alloc, bindings, arg, levels, names)?)?;
            }
            Ok(Term::App(*f, Args { items: built }))
        }
    }
}

/// The term, with new numbers for its variables, from 0 on: those that are not yet among the names
/// come behind them as they are met.
fn number_variables(alloc: Global, t: &Term, names: &mut Names) -> Result<Term, OutOfMemory>
    requires { IsDistinct names.old.order.items }
    ensures distinct { OnOk result (IsDistinct names.new.order.items) }
    ensures renamed { IfOk result (λ u.
        IsRenamed names.old.order.items names.new.order.items (tree t.now) (tree u)) }
{
    match t {
        Term::Var(v) => number_variable(*v, names),
        Term::App(f, args) => {
            let mut built = Vec::with_capacity(alloc, args.items.len())?;
            for arg in &args.items {
                built.push(number_variables(alloc, arg, names)?)?;
            }
            Ok(Term::App(*f, Args { items: built }))
        }
    }
}

/// The variable with its number, or with the next one.
fn number_variable(v: u32, names: &mut Names) -> Result<Term, OutOfMemory>
    requires { IsDistinct names.old.order.items }
    ensures distinct { OnOk result (IsDistinct names.new.order.items) }
    ensures renamed { IfOk result (λ u.
        IsRenamed names.old.order.items names.new.order.items (var v) (tree u)) }
{
    Ok(Term::Var(number_of(v, names)?))
}

/// Gives numbers to the variables of an instance that have none yet, as they are met. The instance is
/// not built.
pub(crate) fn name_instance(
    bindings: &Bindings,
    t: &Term,
    levels: u32,
    names: &mut Names,
) -> Result<(), OutOfMemory>
    requires { IsDistinct names.old.order.items }
    ensures distinct { OnOk result (IsDistinct names.new.order.items) }
    ensures order { OnOk result (names.new.order.items
        ≡ with_variables names.old.order.items
        (apply (put_in levels bindings.now.list.items) (tree t.now))) }
{
    match t {
        Term::Var(v) => match bindings.find(*v) {
            None => {
                number_of(*v, names)?;
                Ok(())
            }
            Some(bound) => {
                if levels == 0 {
                    return name_variables(bound, names);
                }
                name_instance(bindings, bound, levels - 1, names)
            }
        },
        Term::App(_, args) => {
            for arg in &args.items {
                name_instance(bindings, arg, levels, names)?;
            }
            Ok(())
        }
    }
}

/// Gives numbers to the variables of a term that have none yet, as they are met.
pub(crate) fn name_variables(t: &Term, names: &mut Names) -> Result<(), OutOfMemory>
    requires { IsDistinct names.old.order.items }
    ensures distinct { OnOk result (IsDistinct names.new.order.items) }
    ensures order { OnOk result
        (names.new.order.items ≡ with_variables names.old.order.items (tree t.now)) }
{
    match t {
        Term::Var(v) => {
            number_of(*v, names)?;
            Ok(())
        }
        Term::App(_, args) => {
            for arg in &args.items {
                name_variables(arg, names)?;
            }
            Ok(())
        }
    }
}

/// The number of a variable, or the next one. A list of 2^32 - 1 names is full.
#[inline(always)]
pub(crate) fn number_of(v: u32, names: &mut Names) -> Result<u32, OutOfMemory>
    requires { IsDistinct names.old.order.items }
    ensures distinct { OnOk result (IsDistinct names.new.order.items) }
    ensures renamed { IfOk result (λ number.
        IsRenamed names.old.order.items names.new.order.items (var v) (var number)) }
    ensures order { OnOk result
        (names.new.order.items ≡ with_variables names.old.order.items (var v)) }
{
    let next = names.order.len();
    if next >= 4_294_967_295 {
        return Err(OutOfMemory);
    }
    match names.place(v) {
        Some(place) => Ok(place as u32),
        None => {
            names.add(v)?;
            Ok(next as u32)
        }
    }
}
