ghost use Rattle.std.specs.Prelude.{◌≡◌, ◌≢◌, IfOk, IfErr, IsOkUnless};
ghost use Rattle.trs_defs.specs.System.{IsSystem};
ghost use Rattle.trs_core.specs.SystemLimits.{IsWithinLimits, HaveSmallVariables};
ghost use Rattle.trs_core.specs.Faults.{HasSystemFault, IsFirstFault};
ghost use Rattle.trs_core.specs.Valid.{system, IsValid};
ghost use Rattle.trs_core.specs.declared.faults.TrsFault.{TrsFault as Fault};

use crate::checking::check_rule;
use crate::limits::are_within_limits;
use crate::plain::are_plain;
use crate::{Term, TrsFault};
use std::marker::Model;

/// A rewrite rule.
#[derive(Drop)]
pub struct Rule {
    pub left: Term,
    pub right: Term,
}

impl Model for Rule {
    ghost use Rattle.trs_defs.specs.System.{RewriteRule, rule_code};
    ghost use Rattle.trs_core.specs.View.{tree};

    ghost Value = { RewriteRule };

    ghost coded = { rule_code };

    ghost view = { λ a. record { left = tree a.left; right = tree a.right } };
}

/// A rewriting system: the numbers of arguments of its symbols, and its rules.
/// It is one by its type, and within the limits. (Baader and Nipkow, definition 4.2.1.)
#[derive(Drop)]
pub struct Trs {
    arities: Vec<u8>,
    rules: Vec<Rule>,
}

impl Model for Trs {
    ghost use Rattle.trs_defs.specs.System.{System, system_code};
    ghost use Rattle.trs_core.specs.Valid.{IsValid};

    ghost Value = { System };

    ghost coded = { system_code };

    ghost view = { λ a. record { arities = a.arities.items; rules = a.rules.items } };

    ghost invariant = { λ a. IsValid (record { arities = a.arities.items; rules = a.rules.items }) };
}

impl Trs {
    /// The system of an arity table and rules, or its first fault. The only memory that it takes,
    /// from the allocator of the rules, is for the variables of one left side at a time. Its cost is
    /// linear in the sides, but for a logarithm in the number of those variables.
    pub fn new(arities: Vec<u8>, rules: Vec<Rule>) -> Result<Trs, TrsFault>
        ensures system { IfOk result (λ s. s ≡ system arities.items rules.items) }
        ensures within { IfOk result (λ s. IsValid s) }
        ensures faultless { IfOk result (λ _. (fault : Fault)
            → HasSystemFault (system arities.items rules.items) fault → ⊥) }
        ensures fault { IfErr result (λ fault. fault ≢ TrsFault.OutOfMemory
            → IsFirstFault (system arities.items rules.items) fault) }
        // What is a system within the limits has no fault.
        ensures only { IsValid (system arities.items rules.items)
            → IsOkUnless result TrsFault.OutOfMemory }
    {
        if are_plain(&arities, &rules) {
            return Ok(Trs { arities, rules });
        }
        if !are_within_limits(&arities, &rules) {
            return Err(TrsFault::TooMany);
        }
        let alloc = *rules.allocator();
        for (i, rule) in rules.iter().enumerate() {
            check_rule(alloc, &arities, rule, i as u32)?;
        }
        Ok(Trs { arities, rules })
    }

    /// For each symbol, by its number, how many arguments it has.
    pub fn arities(&self) -> &[u8]
        ensures { result.now ≡ self.now.arities }
    {
        &self.arities
    }

    /// The rules, by their numbers from 0.
    pub fn rules(&self) -> &[Rule]
        ensures rules { result.now ≡ self.now.rules }
        ensures valid { IsSystem self.now }
        ensures limits { IsWithinLimits self.now }
        ensures variables { HaveSmallVariables self.now.rules }
    {
        &self.rules
    }
}
