ghost use Rattle.std.specs.Prelude.{IfOk};
ghost use Rattle.trs_defs.specs.Variable.{variables_of, with_variables};
ghost use Rattle.trs_core.specs.View.{tree};
ghost use Rattle.crit_pairs.specs.PeakList.{IsCount};
ghost use Rattle.completion.specs.Orienting.{AreVariants};

use std::alloc::Global;
use trs_core::{OutOfMemory, Rule, Term};
use trs_unify::{no_names, number_variables};

/// Two terms with new numbers for their variables, in order of first occurrence in the first term
/// and then in the second.
pub(crate) fn renumber(alloc: Global, s: &Term, t: &Term) -> Result<Rule, OutOfMemory>
    ensures variants { IfOk result (λ r. AreVariants (tree s.now) (tree t.now) r.left r.right) }
    ensures left { IfOk result (λ r. IsCount 0 (variables_of r.left)) }
    ensures both { IfOk result (λ r. IsCount 0 (with_variables (variables_of r.left) r.right)) }
{
    let mut names = no_names(alloc);
    let left = number_variables(alloc, s, &mut names)?;
    let right = number_variables(alloc, t, &mut names)?;
    Ok(Rule { left, right })
}
