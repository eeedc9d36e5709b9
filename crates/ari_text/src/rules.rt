ghost use Rattle.std.specs.Prelude.{◌≡◌, IfOk};
ghost use Rattle.sexp_core.specs.Items.{view, views};
ghost use Rattle.trs_core.specs.View.{tree};
ghost use Rattle.term_text.specs.Checked.{judged};
ghost use Rattle.term_text.specs.Viewed.{viewed};
ghost use Rattle.ari_text.specs.Least.{lesser};
ghost use Rattle.ari_text.specs.Faults.{ari_fault};
ghost use Rattle.ari_text.specs.Rules.{both_sides, rule, rules_of};

use crate::entry::{Saying, read_entry};
use crate::fault::AriFault;
use names_text::{Names, Symbols};
use sexp_core::Sexp;
use std::alloc::Global;
use term_text::{Judged, both, check_term, push_judged};
use trs_core::{OutOfMemory, Rule, Term};

fn made_rule(sides: Judged<(Term, Term), AriFault>) -> Judged<Rule, AriFault>
    ensures { result ≡ viewed (λ p. both_sides (tree p.0) (tree p.1)) sides }
{
    match sides {
        Ok((left, right)) => Ok(Rule { left, right }),
        Err(fault) => Err(fault),
    }
}

// The rule that two items write, or the least of all faults of their terms.
fn read_rule(
    alloc: Global,
    symbols: &Symbols,
    left: &Sexp,
    right: &Sexp,
) -> Result<Judged<Rule, AriFault>, OutOfMemory>
    ensures { IfOk result (λ r. r ≡ judged ari_fault lesser
        (rule symbols.now (view left.now) (view right.now))) }
{
    let table = symbols.table();
    let mut variables = Names::new(alloc);
    let left = check_term(alloc, &table, true, &mut variables, left)?;
    let right = check_term(alloc, &table, false, &mut variables, right)?;
    Ok(made_rule(both(left, right)))
}

/// The rules that items write, in order, or the least of all faults of their terms.
pub fn read_rules(
    alloc: Global,
    symbols: &Symbols,
    items: &[Sexp],
) -> Result<Judged<Vec<Rule>, AriFault>, OutOfMemory>
    ensures { IfOk result (λ r. viewed (λ v. v.items) r
        ≡ judged ari_fault lesser (rules_of symbols.now (views items.now))) }
{
    let mut rules = Ok(Vec::new(alloc));
    for item in items {
        if let Saying::Rewrites(left, right) = read_entry(item).saying {
            let rule = read_rule(alloc, symbols, left, right)?;
            rules = push_judged(both(rules, rule))?;
        }
    }
    Ok(rules)
}
