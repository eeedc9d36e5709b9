//! Terms whose variables are their own.
ghost use Rattle.std.specs.Prelude.{◌≡◌, ◌++◌, option_map, IfOk, IfSome, IsTrue, OnOk};
ghost use Rattle.sexp_core.specs.Items.{view};
ghost use Rattle.sexp_core.specs.Printed.{text_of};
ghost use Rattle.trs_defs.specs.Size.{within_limits};
ghost use Rattle.trs_defs.specs.WellFormed.{IsWellFormed};
ghost use Rattle.trs_core.specs.View.{tree};
ghost use Rattle.text_reading.specs.Seen.{seen};
ghost use Rattle.names_text.specs.VariableNames.{underscores as underscores_of};
ghost use Rattle.term_text.specs.OwnTerms.{own_term, written_term, own_term_item};

use crate::checked::check_term;
use crate::limits::keeps_limits;
use crate::printing::put_term;
use crate::renumbering::in_order;
use names_text::{NamedTrs, Names};
use sexp_core::Sexp;
use std::alloc::Global;
use text_reading::{Read, place};
use trs_core::{OutOfMemory, Term};

/// A term of a certificate, with its variables numbered from 0 in the order of their first occurrences.
pub fn read_own_term(
    alloc: Global,
    system: &NamedTrs,
    item: &Sexp,
) -> Result<Read<Term>, OutOfMemory>
    ensures { IfOk result (λ r. seen tree r ≡ own_term system.now (view item.now)) }
{
    if !keeps_limits(item) {
        return Ok(Err(place(item)));
    }
    let mut variables = Names::new(alloc);
    check_term(alloc, &system.table(), true, &mut variables, item)
}

/// The term that an item writes over the symbols of a system: a word that is no symbol is a variable, and variables are
/// numbered in the order of their first occurrences. `None` exactly where the item is no term: a head is no symbol or has
/// another number of arguments, a list is empty or has a list as its head, or the term is past the limits on terms
/// (65,536 nodes, depth 1,024).
pub fn read_term(alloc: Global, system: &NamedTrs, item: &Sexp) -> Result<Option<Term>, OutOfMemory>
    ensures term { IfOk result (λ o. option_map tree o ≡ written_term system.now (view item.now)) }
    ensures well_formed { IfOk result (λ o. IfSome o
        (λ t. IsWellFormed system.now.system.arities (tree t))) }
    ensures limits { IfOk result (λ o. IfSome o (λ t. IsTrue (within_limits (tree t)))) }
{
    Ok(read_own_term(alloc, system, item)?.ok())
}

/// Appends the text of a term of a certificate, with so many underscores before each variable.
pub fn put_own_term(
    alloc: Global,
    out: &mut Vec<u8>,
    system: &NamedTrs,
    underscores: usize,
    term: &Term,
) -> Result<(), OutOfMemory>
    requires { underscores ≡ underscores_of system.now.names }
    ensures { OnOk result (out.new.items
        ≡ out.old.items ++ text_of (own_term_item system.now (tree term.now))) }
{
    let term = in_order(alloc, term)?;
    put_term(out, system, underscores, &term)
}
