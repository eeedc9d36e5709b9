ghost use Rattle.std.specs.Prelude.{◌≡◌, ◌↔◌, IfOk, IfSome, IsTrue};
ghost use Rattle.trs_defs.specs.Tree.{count};
ghost use Rattle.order_theory.specs.PathOrder.{GreaterThanAll, PathGreater, SomeAtLeast};
ghost use Rattle.path_lpo.specs.Walked.{Compares, HaveOneRoot, IsAgain};

use crate::comparison::Comparison;
use crate::effort::Effort;
use crate::root::Root;
use crate::terms::Terms;

/// How the first term compares with the second, by as many pairs of positions as the effort allows.
/// Two positions are compared at most once, so there are at most as many as the product of the
/// numbers of nodes, less what is known. (Löchner, Things to know when implementing LPO, 2006.)
#[cycle(compare)]
pub(crate) fn compare<T: Terms, E: Effort>(
    terms: &T,
    memory: &mut T::Memory,
    effort: &mut E,
    s: T::Node,
    t: T::Node,
) -> Result<Comparison, E::End>
    requires { T.is_true terms.now memory.old }
    ensures memory { T.is_true terms.now memory.new }
    ensures comparison { IfOk result (Compares (T.walked terms.now) (T.ranks terms.now) s t) }
{
    effort.spend()?;
    if let Some(comparison) = terms.known(memory, s, t) {
        return Ok(comparison);
    }
    let comparison = compare_roots(terms, memory, effort, s, t)?;
    terms.keep(memory, s, t, comparison);
    Ok(comparison)
}

/// The same, by their roots and arguments.
#[cycle(compare)]
fn compare_roots<T: Terms, E: Effort>(
    terms: &T,
    memory: &mut T::Memory,
    effort: &mut E,
    s: T::Node,
    t: T::Node,
) -> Result<Comparison, E::End>
    requires { T.is_true terms.now memory.old }
    ensures memory { T.is_true terms.now memory.new }
    ensures comparison { IfOk result (Compares (T.walked terms.now) (T.ranks terms.now) s t) }
{
    match terms.root(s) {
        Root::Variable(x) => match terms.root(t) {
            Root::Variable(y) => Ok(Comparison::same_if(x == y)),
            Root::Symbol(_, _) => Ok(Comparison::Neither),
        },
        Root::Symbol(f, ss) => match terms.root(t) {
            Root::Variable(_) => {
                let reaches = some_reaches(terms, memory, effort, ss, t)?;
                Ok(Comparison::greater_if(reaches))
            }
            Root::Symbol(g, ts) => {
                if f != g {
                    if terms.rank(g) < terms.rank(f) {
                        let exceeds = exceeds_all(terms, memory, effort, s, ts)?;
                        return Ok(Comparison::greater_if(exceeds));
                    }
                    let reaches = some_reaches(terms, memory, effort, ss, t)?;
                    return Ok(Comparison::greater_if(reaches));
                }
                if !are_as_many(terms, ss, ts) {
                    let reaches = some_reaches(terms, memory, effort, ss, t)?;
                    return Ok(Comparison::greater_if(reaches));
                }
                compare_in_order(terms, memory, effort, s, t, ss, ts)
            }
        },
    }
}

/// The same for terms of one root, by these arguments, as many of both.
#[cycle(compare)]
fn compare_in_order<T: Terms, E: Effort>(
    terms: &T,
    memory: &mut T::Memory,
    effort: &mut E,
    s: T::Node,
    t: T::Node,
    ss: T::List,
    ts: T::List,
) -> Result<Comparison, E::End>
    requires memory { T.is_true terms.now memory.old }
    requires root { HaveOneRoot (T.walked terms.now) s t ss ts }
    requires count { count ((T.walked terms.now).trees ss) ≡ count ((T.walked terms.now).trees ts) }
    ensures memory { T.is_true terms.now memory.new }
    ensures comparison { IfOk result (Compares (T.walked terms.now) (T.ranks terms.now) s t) }
{
    let mut lefts = ss;
    let mut rights = ts;
    while let Some((a, left)) = terms.split_first(lefts) {
        match terms.split_first(rights) {
            None => return Ok(Comparison::Neither),
            Some((b, right)) => match compare(terms, memory, effort, a, b)? {
                Comparison::Same => {
                    lefts = left;
                    rights = right;
                }
                Comparison::Greater => {
                    let exceeds = exceeds_all(terms, memory, effort, s, right)?;
                    return Ok(Comparison::greater_if(exceeds));
                }
                Comparison::Neither => {
                    let reaches = some_reaches(terms, memory, effort, left, t)?;
                    return Ok(Comparison::greater_if(reaches));
                }
            },
        }
    }
    Ok(Comparison::Same)
}

/// Whether the term is greater than each of the list.
#[cycle(compare)]
fn exceeds_all<T: Terms, E: Effort>(
    terms: &T,
    memory: &mut T::Memory,
    effort: &mut E,
    s: T::Node,
    list: T::List,
) -> Result<bool, E::End>
    requires { T.is_true terms.now memory.old }
    ensures memory { T.is_true terms.now memory.new }
    ensures exceeds { IfOk result (λ exceeds. IsTrue exceeds ↔ GreaterThanAll (T.ranks terms.now)
        ((T.walked terms.now).tree s) ((T.walked terms.now).trees list)) }
{
    let mut rest = list;
    let mut last = None;
    while let Some((b, others)) = terms.split_first(rest) {
        let is_below = exceeds(terms, memory, effort, s, last, b)?;
        if !is_below {
            return Ok(false);
        }
        last = Some(b);
        rest = others;
    }
    Ok(true)
}

/// Whether the term is greater than another, where it is greater than the one before it, if there is
/// one. So equal terms that stand beside each other are looked at once.
#[cycle(compare)]
fn exceeds<T: Terms, E: Effort>(
    terms: &T,
    memory: &mut T::Memory,
    effort: &mut E,
    s: T::Node,
    last: Option<T::Node>,
    b: T::Node,
) -> Result<bool, E::End>
    requires memory { T.is_true terms.now memory.old }
    requires last { IfSome last (λ a. PathGreater (T.ranks terms.now)
        ((T.walked terms.now).tree s) ((T.walked terms.now).tree a)) }
    ensures memory { T.is_true terms.now memory.new }
    ensures exceeds { IfOk result (λ exceeds. IsTrue exceeds ↔ PathGreater (T.ranks terms.now)
        ((T.walked terms.now).tree s) ((T.walked terms.now).tree b)) }
{
    if is_again(terms, memory, last, b) {
        return Ok(true);
    }
    Ok(compare(terms, memory, effort, s, b)?.is_greater())
}

/// Whether one term of the list is the term, or greater.
#[cycle(compare)]
fn some_reaches<T: Terms, E: Effort>(
    terms: &T,
    memory: &mut T::Memory,
    effort: &mut E,
    list: T::List,
    t: T::Node,
) -> Result<bool, E::End>
    requires { T.is_true terms.now memory.old }
    ensures memory { T.is_true terms.now memory.new }
    ensures reaches { IfOk result (λ reaches. IsTrue reaches ↔ SomeAtLeast (T.ranks terms.now)
        ((T.walked terms.now).trees list) ((T.walked terms.now).tree t)) }
{
    let mut rest = list;
    while let Some((a, others)) = terms.split_first(rest) {
        if compare(terms, memory, effort, a, t)?.is_at_least() {
            return Ok(true);
        }
        rest = others;
    }
    Ok(false)
}

/// Whether a term is seen to be the one before it.
fn is_again<T: Terms>(terms: &T, memory: &mut T::Memory, last: Option<T::Node>, b: T::Node) -> bool
    requires { T.is_true terms.now memory.old }
    ensures again { IsTrue result → IsAgain (T.walked terms.now) last b }
    ensures memory { T.is_true terms.now memory.new }
{
    match last {
        None => false,
        Some(a) => terms.are_same(memory, a, b),
    }
}

/// Whether two lists have as many terms.
fn are_as_many<T: Terms>(terms: &T, us: T::List, vs: T::List) -> bool
    ensures { IsTrue result ↔ (count ((T.walked terms.now).trees us)
        ≡ count ((T.walked terms.now).trees vs)) }
{
    let mut left = us;
    let mut right = vs;
    while let Some((_, more)) = terms.split_first(left) {
        match terms.split_first(right) {
            None => return false,
            Some((_, rest)) => {
                left = more;
                right = rest;
            }
        }
    }
    terms.split_first(right).is_none()
}
