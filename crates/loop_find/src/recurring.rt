//! Whether an instance of a term may stand in another one, by their tokens.
ghost use Rattle.std.specs.Prelude.{◌≡◌, ◌++◌, ◌+◌, ◌-◌, ◌<◌, ◌^◌, ◌↔◌, min, length, false, ℕ, List, drop, IsTrue, IfSome, IfNone};
ghost use Rattle.trs_defs.specs.Tree.{Tree};
ghost use Rattle.loop_find.specs.Flat.{tokens_of, image, images, arguments};
ghost use Rattle.loop_find.specs.declared.tokens.Token.{Token};
ghost use Rattle.loop_find.specs.LoopRow.{Recurs};

use crate::tokens::Token;

/// Whether an instance of the pattern may stand in a term. It takes no memory, and where no variable
/// occurs twice in the pattern, it is `true` only where one does.
pub(crate) fn may_recur(pattern: &[Token], tokens: &[Token]) -> bool
    requires { length tokens.now < 2 ^ 63 }
    ensures { result ≡ false → (p t : Tree) (q : List ℕ) → pattern.now ≡ tokens_of p
        → tokens.now ≡ tokens_of t → Recurs p t q → ⊥ }
{
    for start in 0..tokens.len() {
        if may_match(pattern, tokens, start) {
            return true;
        }
    }
    false
}

/// Whether an instance of the pattern may begin at a place of the tokens.
fn may_match(pattern: &[Token], tokens: &[Token], start: usize) -> bool
    requires { length tokens.now < 2 ^ 63 }
    ensures { result ≡ false → (σ : ℕ → Tree) (rest : List Token)
        → drop start tokens.now ≡ images σ pattern.now ++ rest → ⊥ }
{
    let mut at = start;
    for token in pattern {
        match next_place(*token, tokens, at) {
            None => return false,
            Some(next) => at = next,
        }
    }
    true
}

/// The place behind the image of a pattern's token. `None` where none stands at the place.
fn next_place(token: Token, tokens: &[Token], at: usize) -> Option<usize>
    requires { length tokens.now < 2 ^ 63 }
    ensures some { IfSome result (λ next. (σ : ℕ → Tree) (rest : List Token)
        → drop at tokens.now ≡ image σ token ++ rest → drop next tokens.now ≡ rest) }
    ensures none { IfNone result ((σ : ℕ → Tree) (rest : List Token)
        → drop at tokens.now ≡ image σ token ++ rest → ⊥) }
{
    if at >= tokens.len() {
        return None;
    }
    match token {
        Token::Var(_) => Some(behind(tokens, at)),
        Token::App(f, n) => {
            if !is_symbol(tokens[at], f, n) {
                return None;
            }
            Some(at + 1)
        }
    }
}

fn is_symbol(token: Token, f: u32, n: u32) -> bool
    ensures { IsTrue result ↔ (token ≡ Token.App f n) }
{
    match token {
        Token::Var(_) => false,
        Token::App(g, m) => g == f && m == n,
    }
}

/// The place behind the term that begins at a place.
fn behind(tokens: &[Token], start: usize) -> usize
    requires { length tokens.now < 2 ^ 63 }
    ensures { (t : Tree) (rest : List Token) → drop start tokens.now ≡ tokens_of t ++ rest
        → drop result tokens.now ≡ rest }
{
    let mut ahead: usize = 1;
    let mut at = start;
    while ahead > 0 {
        if at >= tokens.len() {
            return at;
        }
        ahead = ahead_after(ahead, tokens[at]);
        at += 1;
    }
    at
}

/// How many terms are ahead behind a token, with which the first of so many begins.
fn ahead_after(ahead: usize, token: Token) -> usize
    ensures { result ≡ min (ahead - 1 + arguments token) usize.MAX }
{
    match token {
        Token::Var(_) => ahead.saturating_sub(1),
        Token::App(_, n) => ahead.saturating_sub(1).saturating_add(n as usize),
    }
}
