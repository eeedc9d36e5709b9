//! Terms as lists of tokens, in preorder.
ghost use Rattle.std.specs.Prelude.{◌≡◌, ◌≤◌, ◌++◌, length, slice_range, OnOk, IfOk};
ghost use Rattle.trs_core.specs.View.{tree};
ghost use Rattle.loop_find.specs.Flat.{tokens_of};

use std::alloc::Global;
use trs_core::{OutOfMemory, Term};

/// The root of a term: a variable, or a symbol with the number of its arguments, which follow.
#[derive(Clone, Copy)]
pub(crate) enum Token {
    Var(u32),
    App(u32, u32),
}

/// The tokens of the sides of a closure.
#[derive(Drop)]
pub(crate) struct SideTokens {
    pub left: Vec<Token>,
    pub right: Vec<Token>,
}

/// The tokens from one place to another.
pub(crate) fn part(tokens: &[Token], start: usize, end: usize) -> &[Token]
    requires order { start ≤ end }
    requires within { end ≤ length tokens.now }
    ensures { result.now ≡ slice_range tokens.now start end }
{
    let (_, rest) = tokens.split_at(start);
    let (found, _) = rest.split_at(end - start);
    found
}

/// The tokens of a term.
pub(crate) fn term_tokens(alloc: Global, t: &Term) -> Result<Vec<Token>, OutOfMemory>
    ensures { IfOk result (λ tokens. tokens.items ≡ tokens_of (tree t.now)) }
{
    let mut tokens = Vec::new(alloc);
    put_tokens(t, &mut tokens)?;
    Ok(tokens)
}

/// Adds the tokens of a term. A list of 2^32 - 1 arguments is full.
pub(crate) fn put_tokens(t: &Term, tokens: &mut Vec<Token>) -> Result<(), OutOfMemory>
    ensures { OnOk result (tokens.new.items ≡ tokens.old.items ++ tokens_of (tree t.now)) }
{
    match t {
        Term::Var(v) => {
            tokens.push(Token::Var(*v))?;
            Ok(())
        }
        Term::App(f, args) => {
            let count = args.items.len();
            if count >= 4_294_967_295 {
                return Err(OutOfMemory);
            }
            tokens.push(Token::App(*f, count as u32))?;
            for arg in &args.items {
                put_tokens(arg, tokens)?;
            }
            Ok(())
        }
    }
}
