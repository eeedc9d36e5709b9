ghost use Rattle.trs_defs.specs.System.{IsSystem};
ghost use Rattle.trs_core.specs.SystemLimits.{AreBytes, HaveSmallVariables, IsWithinLimits};

use crate::Trs;

/// A law, with nothing to run but the reading of the system: by its type it is one, keeps the limits,
/// and has arities that are bytes.
pub fn systems_are_valid(trs: &Trs)
    ensures valid { IsSystem trs.now }
    ensures limits { IsWithinLimits trs.now }
    ensures variables { HaveSmallVariables trs.now.rules }
    ensures bytes { AreBytes trs.now.arities }
{
    let _rules = trs.rules();
    for _arity in trs.arities() {}
}
