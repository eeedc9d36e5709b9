//! Instances of terms, written as tokens, with new numbers for their variables.
ghost use Rattle.std.specs.Prelude.{◌≡◌, ◌≢◌, ◌<◌, ◌+◌, ◌∷◌, [], ℕ, suc, Some, IfOk, IfSome, IfNone, MatchOption};
ghost use Rattle.std.specs.Option.{option_map};
ghost use Rattle.trs_defs.specs.Tree.{Tree, var};
ghost use Rattle.trs_defs.specs.Substitution.{apply};
ghost use Rattle.trs_core.specs.View.{tree};
ghost use Rattle.loop_find.specs.declared.tokens.Token.TheVariants.{Var, App};
ghost use Rattle.loop_find.specs.Flat.{tokens_of};
ghost use Rattle.loop_find.specs.Bindings.{resolved};
ghost use Rattle.loop_find.specs.Written.{Named, Writes, WritesSymbol, put_way, way_into};

use crate::binding::{Binding, bound_term};
use crate::tokens::Token;
use trs_core::{OutOfMemory, Term};

/// The most nodes of a side of a new closure. Its depth is then below 1,024.
pub(crate) const MOST_NODES: usize = 256;

/// Adds the tokens of an instance: `steps` times what stands for a variable is put in its place.
/// `false` where there would be too many.
pub(crate) fn write(
    found: &[Binding],
    steps: u8,
    t: &Term,
    names: &mut Vec<u32>,
    tokens: &mut Vec<Token>,
) -> Result<bool, OutOfMemory>
    ensures { IfOk result (Writes (tokens_of (apply (resolved found.now steps) (tree t.now)))
        names.old.items tokens.old.items names.new.items tokens.new.items) }
{
    match t {
        Term::Var(v) => match next_term(found, steps, *v) {
            None => write_name(*v, names, tokens),
            Some(u) => write(found, steps - 1, u, names, tokens),
        },
        Term::App(f, args) => {
            if !write_symbol(*f, args.items.len(), tokens)? {
                return Ok(false);
            }
            for arg in &args.items {
                if !write(found, steps, arg, names, tokens)? {
                    return Ok(false);
                }
            }
            Ok(true)
        }
    }
}

/// What stands for a variable, if a step is left.
fn next_term<'a>(found: &[Binding<'a>], steps: u8, v: u32) -> Option<&'a Term>
    ensures none { IfNone result (resolved found.now steps v ≡ var v) }
    ensures left { IfSome result (λ _. 0 < steps) }
    ensures some { IfSome result (λ u. (n : ℕ) → steps ≡ n + 1
        → resolved found.now steps v ≡ apply (resolved found.now n) (tree u.now)) }
{
    if steps == 0 {
        return None;
    }
    bound_term(found, v)
}

/// Adds the instance of a term with another one at the place that the way leads to, if there is a
/// way. `false` where there would be too many tokens.
pub(crate) fn write_replaced(
    found: &[Binding],
    t: &Term,
    way: Option<&[u8]>,
    by: &Term,
    names: &mut Vec<u32>,
    tokens: &mut Vec<Token>,
) -> Result<bool, OutOfMemory>
    ensures { IfOk result (Writes
        (tokens_of (apply (resolved found.now 2)
        (put_way (option_map (λ w. w.now) way.entry) (tree t.now) (tree by.now))))
        names.old.items tokens.old.items names.new.items tokens.new.items) }
{
    let Some(place) = way else {
        return write(found, 2, t, names, tokens);
    };
    let Some((first, below)) = first_step(place) else {
        return write(found, 2, by, names, tokens);
    };
    match t {
        Term::Var(_) => write(found, 2, t, names, tokens),
        Term::App(f, args) => {
            if !write_symbol(*f, args.items.len(), tokens)? {
                return Ok(false);
            }
            for (i, arg) in args.items.iter().enumerate() {
                let on = way_below(first, below, i);
                if !write_replaced(found, arg, on, by, names, tokens)? {
                    return Ok(false);
                }
            }
            Ok(true)
        }
    }
}

/// The first step of a way, and the way behind it.
fn first_step(place: &[u8]) -> Option<(u8, &[u8])>
    ensures some { IfSome result (λ step. place.now ≡ step.0 ∷ step.1.now) }
    ensures none { IfNone result (place.now ≡ []) }
{
    if place.len() == 0 {
        return None;
    }
    let (_, below) = place.split_at(1);
    Some((place[0], below))
}

/// The way on into an argument, counted from 0, if the way leads into it.
fn way_below(first: u8, below: &[u8], i: usize) -> Option<&[u8]>
    ensures { option_map (λ w. w.now) result ≡ way_into first below.now i }
{
    if first == 0 {
        return None;
    }
    if first as usize - 1 == i {
        return Some(below);
    }
    None
}

/// Adds a symbol, unless it would have too many tokens with its arguments.
fn write_symbol(f: u32, count: usize, tokens: &mut Vec<Token>) -> Result<bool, OutOfMemory>
    ensures { IfOk result (WritesSymbol f count tokens.old.items tokens.new.items) }
{
    let room = MOST_NODES.saturating_sub(tokens.len());
    if count >= room {
        return Ok(false);
    }
    tokens.push(Token::App(f, count as u32))?;
    Ok(true)
}

/// Adds a variable with its number.
fn write_name(v: u32, names: &mut Vec<u32>, tokens: &mut Vec<Token>) -> Result<bool, OutOfMemory>
    ensures { IfOk result (Writes (Var v ∷ [])
        names.old.items tokens.old.items names.new.items tokens.new.items) }
{
    if tokens.len() >= MOST_NODES {
        return Ok(false);
    }
    let number = number_of(v, names)?;
    tokens.push(Token::Var(number))?;
    Ok(true)
}

/// The number of a variable: its place among the names, to which it is added if it is new. A list of
/// 2^32 - 1 names is full.
fn number_of(v: u32, names: &mut Vec<u32>) -> Result<u32, OutOfMemory>
    ensures { IfOk result (λ i.
        Named names.old.items names.new.items (Var v ∷ []) (Var i ∷ [])) }
{
    if names.len() >= 4_294_967_295 {
        return Err(OutOfMemory);
    }
    for (i, name) in names.iter().enumerate() {
        if *name == v {
            return Ok(i as u32);
        }
    }
    let next = names.len() as u32;
    names.push(v)?;
    Ok(next)
}
