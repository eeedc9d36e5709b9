ghost use Rattle.std.specs.Prelude.{◌≡◌, ◌↔◌, None, Some, Err, cond, false};
ghost use Rattle.trs_defs.specs.Position.{subterm_at, replaced_at};
ghost use Rattle.trs_core.specs.Limits.{Gives, replacement};
ghost use Rattle.trs_core.specs.View.{tree};

use crate::{OutOfMemory, Position, Term};
use std::alloc::Global;

/// Why a replacement was not made.
#[derive(Clone, Copy, Debug, PartialEq, Eq)]
pub enum ReplaceFault {
    /// The position is not in the term.
    NoPosition,
    /// The result would have more than 65,536 nodes, or be deeper than 1,024.
    TooLarge,
    OutOfMemory,
}

impl From<OutOfMemory> for ReplaceFault {
    ghost use Rattle.std.specs.Prelude.{◌≡◌};
    ghost use Rattle.trs_core.specs.declared.replacing.ReplaceFault.TheVariants as replace;

    ghost from_gives = { λ _ e. e ≡ replace.OutOfMemory };

    fn from(_e: OutOfMemory) -> ReplaceFault {
        ReplaceFault::OutOfMemory
    }
}

impl Term {
    /// The term with another subterm at a position. (Baader and Nipkow, definition 3.1.3.)
    #[tactic(auto, using(crate::proofs::Absent::no_position))]
    pub fn replace(&self, alloc: Global, p: &Position, by: &Term) -> Result<Term, ReplaceFault>
        ensures answer { Gives ReplaceFault.OutOfMemory result
            (replacement p.now (tree self.now) (tree by.now)) }
        // The answer is `NoPosition` exactly where `at` gives `None`.
        ensures no_position { replacement p.now (tree self.now) (tree by.now)
            ≡ Err ReplaceFault.NoPosition ↔ subterm_at p.now (tree self.now) ≡ None }
    {
        let mut made = self.copy(alloc)?;
        if !made.put(p, by.copy(alloc)?) {
            return Err(ReplaceFault::NoPosition);
        }
        if made.is_within_limits() {
            Ok(made)
        } else {
            Err(ReplaceFault::TooLarge)
        }
    }

    /// Puts another subterm at a position, in place, and says whether the position is in the term.
    /// It takes no memory, and as many steps as the position has places.
    pub fn put(&mut self, p: &Position, by: Term) -> bool
        ensures put { replaced_at p.now (tree self.old) (tree by)
            ≡ cond result (Some (tree self.new)) None }
        ensures no_position { result ≡ false ↔ subterm_at p.now (tree self.old) ≡ None }
        ensures kept { result ≡ false → self.new ≡ self.old }
    {
        put_at(self, p.places(), by)
    }
}

fn put_at(term: &mut Term, places: &[u8], by: Term) -> bool
    ensures put { replaced_at places.now (tree term.old) (tree by)
        ≡ cond result (Some (tree term.new)) None }
    ensures kept { result ≡ false → term.new ≡ term.old }
{
    match places {
        [] => {
            *term = by;
            true
        }
        [place, rest @ ..] => match term {
            Term::Var(_) => false,
            Term::App(_, args) => {
                let index = usize::from(*place);
                if index == 0 || args.items.len() < index {
                    return false;
                }
                put_at(&mut args.items[index - 1], rest, by)
            }
        },
    }
}
