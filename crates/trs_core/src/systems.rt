ghost use Rattle.std.specs.Prelude.{◌≡◌, ◌↔◌, IsTrue};
ghost use Rattle.trs_defs.specs.System.{has_root, is_defined};
ghost use Rattle.trs_core.specs.View.{tree};

use crate::{Rule, Term, Trs};

impl Trs {
    /// Whether the symbol is the root of a left side.
    pub fn is_defined(&self, f: u32) -> bool
        ensures { result ≡ is_defined self.now.rules f }
    {
        is_root_of_some(f, self.rules())
    }

    /// Whether the arity tables are equal, and the rules, in order.
    pub fn same(&self, other: &Trs) -> bool
        ensures { IsTrue result ↔ (self.now ≡ other.now) }
    {
        self.arities() == other.arities() && same_rules(self.rules(), other.rules())
    }
}

fn is_root_of_some(f: u32, rules: &[Rule]) -> bool
    ensures { result ≡ is_defined rules.now f }
{
    for rule in rules {
        if has_root(&rule.left, f) {
            return true;
        }
    }
    false
}

fn has_root(t: &Term, f: u32) -> bool
    ensures { result ≡ has_root f (tree t.now) }
{
    match t {
        Term::Var(_) => false,
        Term::App(g, _) => *g == f,
    }
}

fn same_rules(rules: &[Rule], others: &[Rule]) -> bool
    ensures { IsTrue result ↔ (rules.now ≡ others.now) }
{
    if rules.len() != others.len() {
        return false;
    }
    for (i, rule) in rules.iter().enumerate() {
        if !same_rule(rule, &others[i]) {
            return false;
        }
    }
    true
}

fn same_rule(rule: &Rule, other: &Rule) -> bool
    ensures { IsTrue result ↔ (rule.now ≡ other.now) }
{
    rule.left.same(&other.left) && rule.right.same(&other.right)
}
