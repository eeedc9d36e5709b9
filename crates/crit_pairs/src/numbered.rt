//! The ids of instances, with new numbers for their variables.
ghost use Rattle.std.specs.Prelude.{◌≡◌, ◌<◌, ◌≤◌, All, length, map, take, drop, IfOk, IfSome, OnOk};
ghost use Rattle.trs_defs.specs.Tree.{var, app, trees};
ghost use Rattle.trs_defs.specs.Substitution.{apply};
ghost use Rattle.trs_core.specs.View.{tree};
ghost use Rattle.term_pool.specs.Pooled.{Extends, StandsFor, tree_at};
ghost use Rattle.trs_unify.specs.Renamed.{IsRenamed};
ghost use Rattle.crit_pairs.specs.Meeting.{put_in, solution};
ghost use Rattle.crit_pairs.specs.NumberedVariables.{AreVariableIds};
ghost use Rattle.crit_pairs.specs.Sides.{IsDistinct};

use crate::binding_table::Bindings;
use crate::names::Names;
use crate::numbered_variables::NumberedVariables;
use crate::solved::number_of;
use std::alloc::Global;
use term_pool::Pool;
use trs_core::{OutOfMemory, Term};

/// The id of a variable's instance, with new numbers for its variables. Mostly it is a variable itself.
#[inline(always)]
pub(crate) fn renumber_variable_in_pool(
    alloc: Global,
    bindings: &Bindings,
    v: u32,
    names: &mut Names,
    numbered: &mut NumberedVariables,
    pool: &mut Pool,
) -> Result<u32, OutOfMemory>
    requires distinct { IsDistinct names.old.order.items }
    requires ids { AreVariableIds pool.old numbered.old }
    ensures distinct { OnOk result (IsDistinct names.new.order.items) }
    ensures renamed { IfOk result (λ id. IsRenamed names.old.order.items names.new.order.items
        (solution bindings.now v) (tree_at pool.new id)) }
    ensures there { IfOk result (λ id. id < length pool.new) }
    ensures kept { Extends pool.old pool.new }
    ensures ids { OnOk result (AreVariableIds pool.new numbered.new) }
{
    match instance_variable(bindings, v) {
        Some(w) => number_variable_in_pool(w, names, numbered, pool),
        None => {
            let t = Term::Var(v);
            let levels = bindings.levels;
            let mut arguments = Vec::new(alloc);
            renumber_in_pool(
                alloc,
                bindings,
                &t,
                levels,
                names,
                numbered,
                pool,
                &mut arguments,
            )
        }
    }
}

/// The variable that is a variable's instance. `None` where the instance may be another term.
#[inline(always)]
fn instance_variable(bindings: &Bindings, v: u32) -> Option<u32>
    ensures { IfSome result (λ w. solution bindings.now v ≡ var w) }
{
    match bindings.find(v) {
        None => Some(v),
        Some(Term::Var(w)) if bindings.levels == 0 => Some(*w),
        Some(_) => None,
    }
}

/// The id of a term's instance, with new numbers for its variables: those that are not yet among the
/// names come behind them as they are met. Ids of arguments are noted behind others until all are known.
fn renumber_in_pool(
    alloc: Global,
    bindings: &Bindings,
    t: &Term,
    levels: u32,
    names: &mut Names,
    numbered: &mut NumberedVariables,
    pool: &mut Pool,
    arguments: &mut Vec<u32>,
) -> Result<u32, OutOfMemory>
    requires distinct { IsDistinct names.old.order.items }
    requires ids { AreVariableIds pool.old numbered.old }
    ensures distinct { OnOk result (IsDistinct names.new.order.items) }
    ensures renamed { IfOk result (λ id. IsRenamed names.old.order.items names.new.order.items
        (apply (put_in levels bindings.now.list.items) (tree t.now)) (tree_at pool.new id)) }
    ensures there { IfOk result (λ id. id < length pool.new) }
    ensures kept { Extends pool.old pool.new }
    ensures ids { OnOk result (AreVariableIds pool.new numbered.new) }
    ensures arguments { OnOk result (arguments.new.items ≡ arguments.old.items) }
{
    match t {
        Term::Var(v) => match bindings.find(*v) {
            None => number_variable_in_pool(*v, names, numbered, pool),
            Some(bound) => {
                if levels == 0 {
                    return number_in_pool(alloc, bound, names, numbered, pool, arguments);
                }
                let left = levels - 1;
                renumber_in_pool(
                    alloc, bindings, bound, left, names, numbered, pool, arguments,
                )
            }
        },
        Term::App(f, args) => {
            let start = arguments.len();
            for arg in &args.items {
                let id = renumber_in_pool(
                    alloc, bindings, arg, levels, names, numbered, pool, arguments,
                )?;
                arguments.push(id)?;
            }
            apply_from(alloc, *f, start, arguments, pool)
        }
    }
}

/// The id of a term, with new numbers for its variables: those that are not yet among the names come
/// behind them as they are met.
fn number_in_pool(
    alloc: Global,
    t: &Term,
    names: &mut Names,
    numbered: &mut NumberedVariables,
    pool: &mut Pool,
    arguments: &mut Vec<u32>,
) -> Result<u32, OutOfMemory>
    requires distinct { IsDistinct names.old.order.items }
    requires ids { AreVariableIds pool.old numbered.old }
    ensures distinct { OnOk result (IsDistinct names.new.order.items) }
    ensures renamed { IfOk result (λ id. IsRenamed names.old.order.items names.new.order.items
        (tree t.now) (tree_at pool.new id)) }
    ensures there { IfOk result (λ id. id < length pool.new) }
    ensures kept { Extends pool.old pool.new }
    ensures ids { OnOk result (AreVariableIds pool.new numbered.new) }
    ensures arguments { OnOk result (arguments.new.items ≡ arguments.old.items) }
{
    match t {
        Term::Var(v) => number_variable_in_pool(*v, names, numbered, pool),
        Term::App(f, args) => {
            let start = arguments.len();
            for arg in &args.items {
                let id = number_in_pool(alloc, arg, names, numbered, pool, arguments)?;
                arguments.push(id)?;
            }
            apply_from(alloc, *f, start, arguments, pool)
        }
    }
}

/// The id of the term of a symbol over the ids from a place on, which are taken off.
fn apply_from(
    alloc: Global,
    f: u32,
    start: usize,
    ids: &mut Vec<u32>,
    pool: &mut Pool,
) -> Result<u32, OutOfMemory>
    requires start { start ≤ length ids.old.items }
    requires below { All (λ i. i < length pool.old) (drop start ids.old.items) }
    ensures id { IfOk result (λ id. StandsFor pool.new id
        (app f (trees (map (tree_at pool.old) (drop start ids.old.items))))) }
    ensures kept { Extends pool.old pool.new }
    ensures taken { OnOk result (ids.new.items ≡ take start ids.old.items) }
{
    let id = pool.apply(alloc, f, &ids[start..])?;
    ids.truncate(start);
    Ok(id)
}

/// The id of the variable with its number, or with the next one.
#[inline(always)]
fn number_variable_in_pool(
    v: u32,
    names: &mut Names,
    numbered: &mut NumberedVariables,
    pool: &mut Pool,
) -> Result<u32, OutOfMemory>
    requires distinct { IsDistinct names.old.order.items }
    requires ids { AreVariableIds pool.old numbered.old }
    ensures distinct { OnOk result (IsDistinct names.new.order.items) }
    ensures renamed { IfOk result (λ id. IsRenamed names.old.order.items names.new.order.items
        (var v) (tree_at pool.new id)) }
    ensures there { IfOk result (λ id. id < length pool.new) }
    ensures kept { Extends pool.old pool.new }
    ensures ids { OnOk result (AreVariableIds pool.new numbered.new) }
{
    numbered.id(number_of(v, names)?, pool)
}
