ghost use Rattle.std.specs.Prelude.{◌≡◌, ◌↔◌, IfOk, IfNone, IsTrue};
ghost use Rattle.trs_defs.specs.Tree.{Tree, var};
ghost use Rattle.trs_core.specs.View.{tree};
ghost use Rattle.crit_pairs.specs.Meeting.{Ends, AllEnd, IsSolution, AreEqualUnder, AreEqualExactlyUnder};
ghost use Rattle.crit_pairs.specs.Meeting.{Meets};
ghost use Rattle.crit_pairs.specs.Sides.{DoNotMeet};

use crate::binding_table::{Binding, Bindings};
use crate::cycles::has_cycle;
use std::alloc::Global;
use std::mem::replace;
use trs_core::{OutOfMemory, Term};

/// How often what a variable is bound to is met with another term before it is left to `unify`.
const MOST_RETURNS: u32 = 16;

/// How many levels are walked down, through bindings too. Terms have no more.
const MOST_LEVELS: u32 = 1_040;

/// So many nodes are put into bound terms for each node that they have. It is as good as nothing beside
/// what `unify` takes.
const MOST_NODES_FOR_EACH: u64 = 16;

/// What came of making two terms equal.
pub(crate) enum Meeting {
    /// They are, under the bindings.
    Met,
    /// No substitution makes them equal.
    Apart,
    /// It is not known. They are equal under the bindings at most.
    Unclear,
}

/// What is found of two terms by binding variables one after another.
#[derive(Drop)]
pub(crate) enum Solution<'a> {
    /// The bindings are a most general unifier.
    Unifier(Bindings<'a>),
    /// They have none.
    None,
    /// It is not known.
    Unclear,
}

/// A most general unifier, where no variable that is bound occurs in a term that another one is bound
/// to, or bindings lead from there to terms without such variables. The bindings use the places; where
/// they are no unifier, they hand them back.
pub(crate) fn solve<'a>(
    alloc: Global,
    a: &'a Term,
    b: &'a Term,
    places: &mut Vec<usize>,
) -> Result<Solution<'a>, OutOfMemory>
    ensures { IfOk result (IsSolution (tree a.now) (tree b.now)) }
{
    let mut bindings = Bindings::none(alloc, replace(places, Vec::new(alloc)));
    let mut returns = MOST_RETURNS;
    let meeting = meet(a, b, MOST_LEVELS, &mut bindings, &mut returns)?;
    match meeting {
        Meeting::Apart => {
            *places = bindings.into_places();
            Ok(Solution::None)
        }
        Meeting::Unclear => Ok(refute(bindings, places)),
        Meeting::Met => match first_not_free(&bindings, &mut 0) {
            None => Ok(Solution::Unifier(bindings)),
            Some(first) => Ok(follow(bindings, first, places)),
        },
    }
}

/// What bindings tell of terms that are equal exactly where these are solved, if a variable that is
/// bound occurs in a bound term, at the first one or later.
fn follow<'a>(mut bindings: Bindings<'a>, first: usize, places: &mut Vec<usize>) -> Solution<'a>
    ensures { (a b : Tree) → AreEqualExactlyUnder bindings.entry.list.items a b
        → IsSolution a b result }
{
    if has_cycle(&bindings, first) {
        *places = bindings.into_places();
        return Solution::None;
    }
    if ends(&mut bindings) {
        return Solution::Unifier(bindings);
    }
    *places = bindings.into_places();
    Solution::Unclear
}

/// Terms that are equal under the bindings at most have no unifier where these have a cycle.
fn refute<'a>(bindings: Bindings, places: &mut Vec<usize>) -> Solution<'a>
    ensures { (a b : Tree) → AreEqualUnder bindings.entry.list.items a b → IsSolution a b result }
{
    let is_refuted = has_cycle(&bindings, 0);
    *places = bindings.into_places();
    if is_refuted {
        return Solution::None;
    }
    Solution::Unclear
}

/// Whether two symbols differ that stand at one place, or their numbers of arguments. Then nothing
/// makes the terms equal. It takes no memory, and refutes most overlaps at once.
pub(crate) fn clash(a: &Term, b: &Term) -> bool
    ensures { IsTrue result → DoNotMeet (tree a.now) (tree b.now) }
{
    match (a, b) {
        (Term::App(f, fs), Term::App(g, gs)) => {
            if *f != *g || fs.items.len() != gs.items.len() {
                return true;
            }
            for (i, x) in fs.items.iter().enumerate() {
                if clash(x, &gs.items[i]) {
                    return true;
                }
            }
            false
        }
        _ => false,
    }
}

/// Binds what must be bound for the terms to be equal, as far as so many levels go.
#[cycle(meet)]
fn meet<'a>(
    a: &'a Term,
    b: &'a Term,
    levels: u32,
    bindings: &mut Bindings<'a>,
    returns: &mut u32,
) -> Result<Meeting, OutOfMemory>
    ensures { IfOk result
        (Meets (tree a.now) (tree b.now) bindings.old.list.items bindings.new.list.items) }
{
    if levels == 0 {
        return Ok(Meeting::Unclear);
    }
    match (a, b) {
        (Term::App(f, fs), Term::App(g, gs)) => {
            if *f != *g || fs.items.len() != gs.items.len() {
                return Ok(Meeting::Apart);
            }
            let mut is_clear = true;
            for (i, x) in fs.items.iter().enumerate() {
                let meeting = meet(x, &gs.items[i], levels - 1, bindings, returns)?;
                match meeting {
                    Meeting::Apart => return Ok(Meeting::Apart),
                    Meeting::Met => {}
                    Meeting::Unclear => is_clear = false,
                }
            }
            if is_clear {
                Ok(Meeting::Met)
            } else {
                Ok(Meeting::Unclear)
            }
        }
        (Term::Var(_), _) => meet_variable(a, b, levels, bindings, returns),
        (Term::App(_, _), Term::Var(_)) => meet_variable(a, b, levels, bindings, returns),
    }
}

/// The same for terms of which one is a variable.
#[cycle(meet)]
fn meet_variable<'a>(
    a: &'a Term,
    b: &'a Term,
    levels: u32,
    bindings: &mut Bindings<'a>,
    returns: &mut u32,
) -> Result<Meeting, OutOfMemory>
    ensures { IfOk result
        (Meets (tree a.now) (tree b.now) bindings.old.list.items bindings.new.list.items) }
{
    let x = bindings.resolve(a);
    let y = bindings.resolve(b);
    match (x, y) {
        (Term::Var(v), Term::Var(w)) => {
            if *v == *w {
                return Ok(Meeting::Met);
            }
            // A variable that was not bound before is bound to the other one: chains stay short.
            if is_variable(a, *v) {
                bind(*v, y, bindings)
            } else {
                bind_to_left(x, *w, bindings)
            }
        }
        (Term::Var(v), Term::App(_, _)) => bind(*v, y, bindings),
        (Term::App(_, _), Term::Var(w)) => bind_to_left(x, *w, bindings),
        (Term::App(_, _), Term::App(_, _)) => meet_bound(a, b, x, y, levels, bindings, returns),
    }
}

/// Binds what must be bound for `x` and `y` to be equal, which `a` and `b` are bound to.
#[cycle(meet)]
fn meet_bound<'a>(
    a: &'a Term,
    b: &'a Term,
    x: &'a Term,
    y: &'a Term,
    levels: u32,
    bindings: &mut Bindings<'a>,
    returns: &mut u32,
) -> Result<Meeting, OutOfMemory>
    ensures { IfOk result
        (Meets (tree x.now) (tree y.now) bindings.old.list.items bindings.new.list.items) }
{
    if levels == 0 || *returns == 0 || are_variables(a, b) {
        if are_apart(a, b, x, y) {
            return Ok(Meeting::Apart);
        }
        return Ok(Meeting::Unclear);
    }
    *returns -= 1;
    meet(x, y, levels - 1, bindings, returns)
}

fn are_variables(a: &Term, b: &Term) -> bool {
    matches!((a, b), (Term::Var(_), Term::Var(_)))
}

/// Whether a term is this variable.
fn is_variable(t: &Term, v: u32) -> bool {
    match t {
        Term::Var(w) => *w == v,
        Term::App(_, _) => false,
    }
}

/// Whether symbols differ in `x` and `y`, which `a` and `b` are bound to. What two variables are bound
/// to is not walked: it may be met again and again.
fn are_apart(a: &Term, b: &Term, x: &Term, y: &Term) -> bool
    ensures { IsTrue result → DoNotMeet (tree x.now) (tree y.now) }
{
    if are_variables(a, b) {
        return have_other_roots(x, y);
    }
    clash(x, y)
}

/// Whether two terms have two symbols at their roots.
fn have_other_roots(a: &Term, b: &Term) -> bool
    ensures { IsTrue result → DoNotMeet (tree a.now) (tree b.now) }
{
    match (a, b) {
        (Term::App(f, _), Term::App(g, _)) => *f != *g,
        _ => false,
    }
}

/// Binds the variable to the term, unless it is bound.
fn bind<'a>(v: u32, term: &'a Term, bindings: &mut Bindings<'a>) -> Result<Meeting, OutOfMemory>
    ensures { IfOk result (Meets (var v) (tree term.now)
        bindings.old.list.items bindings.new.list.items) }
{
    if let Some(_earlier) = bindings.find(v) {
        return Ok(Meeting::Unclear);
    }
    bindings.add(Binding { variable: v, term })?;
    Ok(Meeting::Met)
}

/// Binds the variable on the right to the term on the left, unless it is bound.
fn bind_to_left<'a>(
    term: &'a Term,
    v: u32,
    bindings: &mut Bindings<'a>,
) -> Result<Meeting, OutOfMemory>
    ensures { IfOk result (Meets (tree term.now) (var v)
        bindings.old.list.items bindings.new.list.items) }
{
    bind(v, term, bindings)
}

/// Whether bindings lead from all bound terms to terms with no variable that is bound. Then those are
/// put in.
fn ends(bindings: &mut Bindings) -> bool
    ensures list { bindings.new.list.items ≡ bindings.old.list.items }
    ensures ends { IsTrue result → AllEnd bindings.new.levels bindings.new.list.items }
{
    bindings.levels = MOST_LEVELS;
    let most = bindings.nodes().saturating_mul(MOST_NODES_FOR_EACH);
    let mut left = most;
    if first_not_free(bindings, &mut left).is_some() {
        return false;
    }
    bindings.nodes_put_in = most.saturating_sub(left);
    true
}

/// The place of the first binding whose term has a variable that is bound, when no more than so many
/// nodes have been put in.
fn first_not_free(bindings: &Bindings, nodes: &mut u64) -> Option<usize>
    ensures { IfNone result (AllEnd bindings.now.levels bindings.now.list.items) }
{
    for (place, binding) in bindings.list.iter().enumerate() {
        if !leads_out(binding.term, bindings, bindings.levels, MOST_LEVELS, nodes) {
            return Some(place);
        }
    }
    None
}

/// Whether the term has no variable that is bound once the terms of such variables are put in through
/// so many bindings. They have no more nodes than there are left, and are not deep.
fn leads_out(t: &Term, bindings: &Bindings, levels: u32, depth: u32, nodes: &mut u64) -> bool
    ensures { IsTrue result → Ends levels bindings.now.list.items (tree t.now) }
{
    if depth == 0 {
        return false;
    }
    match t {
        Term::Var(v) => match bindings.find(*v) {
            None => true,
            Some(bound) => {
                let size = bound.size();
                if levels == 0 || *nodes < size {
                    return false;
                }
                *nodes -= size;
                leads_out(bound, bindings, levels - 1, depth - 1, nodes)
            }
        },
        Term::App(_, args) => {
            for arg in &args.items {
                if !leads_out(arg, bindings, levels, depth - 1, nodes) {
                    return false;
                }
            }
            true
        }
    }
}
