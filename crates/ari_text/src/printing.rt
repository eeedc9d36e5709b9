ghost use Rattle.std.specs.Prelude.{◌≡◌, ◌++◌, ◌∷◌, [], slice_index_or, OnOk, IfOk};
ghost use Rattle.sexp_core.specs.Items.{item, no_items};
ghost use Rattle.sexp_core.specs.Printed.{text_of, lines};
ghost use Rattle.trs_core.specs.View.{tree};
ghost use Rattle.names_text.specs.Named.{NamedSystem};
ghost use Rattle.ari_text.specs.Problem.{SaysSystem};
ghost use Rattle.term_text.specs.PrintedTerm.{term_item};
ghost use Rattle.ari_text.specs.PrintedProblem.{symbol_items, rule_items, problem_items};

use itoa::Buffer;
use names_text::{NamedTrs, underscores};
use std::alloc::Global;
use term_text::put_term;
use trs_core::{OutOfMemory, Rule};

/// The text of a problem: a line `(format TRS)`, a line `(fun name arity)` for each symbol, and a line `(rule left right)`
/// for each rule, with one blank between members and constants without brackets. Variable i is written as underscores and
/// i in decimal, so that its name is that of no symbol.
pub fn print_problem(alloc: Global, system: &NamedTrs) -> Result<Vec<u8>, OutOfMemory>
    ensures text { IfOk result (λ text. text.items ≡ lines (problem_items system.now)) }
    // It says the system, and no other.
    ensures read { IfOk result (λ text. SaysSystem text.items system.now) }
    ensures alone { IfOk result (λ text. (other : NamedSystem)
        → SaysSystem text.items other → other ≡ system.now) }
{
    let mut out = Vec::new(alloc);
    out.extend_from_slice(b"(format TRS)\n")?;
    put_symbols(&mut out, system, system.arities())?;
    put_rules(&mut out, system, underscores(system), system.trs().rules())?;
    Ok(out)
}

fn put_symbols(out: &mut Vec<u8>, system: &NamedTrs, arities: &[u8]) -> Result<(), OutOfMemory>
    requires { arities.now ≡ system.now.system.arities }
    ensures { OnOk result (out.new.items ≡ out.old.items
        ++ lines (symbol_items system.now.names system.now.system.arities no_items)) }
{
    for f in 0..system.symbols() {
        put_symbol(out, system.name(f), arities[f as usize])?;
    }
    Ok(())
}

fn put_symbol(out: &mut Vec<u8>, name: &[u8], arity: u8) -> Result<(), OutOfMemory>
    ensures { OnOk result (out.new.items
        ≡ out.old.items ++ lines (symbol_items (name.now ∷ []) (arity ∷ []) no_items)) }
{
    let mut buffer = Buffer::new();
    out.extend_from_slice(b"(fun ")?;
    out.extend_from_slice(name)?;
    out.push(b' ')?;
    out.extend_from_slice(buffer.format(arity).as_bytes())?;
    out.extend_from_slice(b")\n")?;
    Ok(())
}

fn put_rules(
    out: &mut Vec<u8>,
    system: &NamedTrs,
    underscores: usize,
    rules: &[Rule],
) -> Result<(), OutOfMemory>
    ensures { OnOk result (out.new.items
        ≡ out.old.items ++ lines (rule_items underscores system.now.names rules.now)) }
{
    for rule in rules {
        put_rule(out, system, underscores, rule)?;
    }
    Ok(())
}

fn put_rule(
    out: &mut Vec<u8>,
    system: &NamedTrs,
    underscores: usize,
    rule: &Rule,
) -> Result<(), OutOfMemory>
    ensures { OnOk result (out.new.items
        ≡ out.old.items ++ lines (rule_items underscores system.now.names (rule.now ∷ []))) }
{
    out.extend_from_slice(b"(rule ")?;
    put_term(out, system, underscores, &rule.left)?;
    out.push(b' ')?;
    put_term(out, system, underscores, &rule.right)?;
    out.extend_from_slice(b")\n")?;
    Ok(())
}
