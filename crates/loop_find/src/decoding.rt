//! Terms that tokens say.
ghost use Rattle.std.specs.Prelude.{◌≡◌, List, map, reverse, IfOk, OnOk};
ghost use Rattle.trs_defs.specs.Tree.{Tree};
ghost use Rattle.trs_core.specs.View.{tree};
ghost use Rattle.loop_find.specs.Flat.{terms_with, term_of};

use crate::tokens::Token;
use std::alloc::Global;
use trs_core::{Args, OutOfMemory, Term};

/// The first term that these tokens say.
pub(crate) fn read_term(alloc: Global, tokens: &[Token]) -> Result<Term, OutOfMemory>
    ensures { IfOk result (λ t. tree t ≡ term_of tokens.now) }
{
    let mut terms = Vec::new(alloc);
    let mut at = tokens.len();
    while at > 0 {
        at -= 1;
        put_before(tokens[at], &mut terms)?;
    }
    match terms.pop() {
        None => Ok(Term::Var(0)),
        Some(t) => Ok(t),
    }
}

/// Puts a token before terms, which stand in reverse order. A symbol takes its arguments from them.
fn put_before(token: Token, terms: &mut Vec<Term>) -> Result<(), OutOfMemory>
    ensures { OnOk result ((ts : List Tree) → map tree terms.old.items ≡ reverse ts
        → map tree terms.new.items ≡ reverse (terms_with token ts)) }
{
    match token {
        Token::Var(v) => {
            terms.push(Term::Var(v))?;
            Ok(())
        }
        Token::App(f, n) => {
            let kept = terms.len().saturating_sub(n as usize);
            let mut args = terms.split_off(kept)?;
            args.reverse();
            terms.push(Term::App(f, Args { items: args }))?;
            Ok(())
        }
    }
}
