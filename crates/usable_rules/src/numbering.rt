ghost use Rattle.std.specs.Prelude.{◌≡◌, ◌≤◌, IfOk, length};
ghost use Rattle.trs_defs.specs.System.{RewriteRule};
ghost use Rattle.trs_core.specs.View.{tree};
ghost use Rattle.term_pool.specs.Numbers.{numbers_where};
ghost use Rattle.usable_rules.specs.Worklist.{has_flag};

use std::alloc::Global;
use trs_core::{OutOfMemory, Rule, Term};

/// The numbers of the rules whose root has a set flag, ascending.
pub(crate) fn numbers_with_flag(
    alloc: Global,
    rules: &[Rule],
    flags: &[bool],
) -> Result<Vec<u32>, OutOfMemory>
    requires { length rules.now ≤ 4095 }
    ensures { IfOk result (λ numbers. numbers.items
        ≡ numbers_where (λ (r : RewriteRule). has_flag flags.now r.left) 0 rules.now) }
{
    let mut numbers = Vec::new(alloc);
    for (k, rule) in rules.iter().enumerate() {
        if has_flag(flags, &rule.left) {
            numbers.push(k as u32)?;
        }
    }
    Ok(numbers)
}

/// Whether the flag of the term's root is set.
fn has_flag(flags: &[bool], t: &Term) -> bool
    ensures { result ≡ has_flag flags.now (tree t.now) }
{
    match t {
        Term::Var(_) => false,
        Term::App(f, _) => flags.get(*f as usize).copied().unwrap_or(false),
    }
}
