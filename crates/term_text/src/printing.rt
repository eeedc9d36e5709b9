ghost use Rattle.std.specs.Prelude.{◌≡◌, ◌++◌, ◌∷◌, [], slice_index_or, OnOk, IfOk};
ghost use Rattle.sexp_core.specs.Items.{item, no_items};
ghost use Rattle.sexp_core.specs.Printed.{text_of, lines};
ghost use Rattle.trs_core.specs.View.{tree};
ghost use Rattle.names_text.specs.Named.{NamedSystem};
ghost use Rattle.term_text.specs.PrintedTerm.{term_item};

use names_text::{NamedTrs, put_variable};
use trs_core::{OutOfMemory, Term};

/// Appends the text of a term, with so many underscores before each variable. A symbol that the system does not have is
/// written as no bytes.
pub fn put_term(
    out: &mut Vec<u8>,
    system: &NamedTrs,
    underscores: usize,
    term: &Term,
) -> Result<(), OutOfMemory>
    ensures { OnOk result (out.new.items
        ≡ out.old.items ++ text_of (term_item underscores system.now.names (tree term.now))) }
{
    match term {
        Term::Var(v) => put_variable(out, underscores, *v),
        Term::App(f, args) => {
            if args.items.is_empty() {
                return put_name(out, system, *f);
            }
            out.push(b'(')?;
            put_name(out, system, *f)?;
            for arg in &args.items {
                out.push(b' ')?;
                put_term(out, system, underscores, arg)?;
            }
            out.push(b')')?;
            Ok(())
        }
    }
}

fn put_name(out: &mut Vec<u8>, system: &NamedTrs, f: u32) -> Result<(), OutOfMemory>
    ensures { OnOk result (out.new.items ≡ out.old.items ++ slice_index_or system.now.names f []) }
{
    if f < system.symbols() {
        out.extend_from_slice(system.name(f))?;
    }
    Ok(())
}
