use crate::OutOfMemory;

/// Why an arity table and rules are no system, or one that passes the limits. Rules are numbered
/// from 0. `TooMany` comes first, then the least rule decides, and in a rule the order below.
#[derive(Clone, Copy, Debug, PartialEq, Eq)]
pub enum TrsFault {
    /// The left side of this rule is a variable.
    LeftIsVariable(u32),
    /// The right side of this rule has a variable, the first one from the left, that the left side lacks.
    ExtraVariable(u32, u32),
    /// A symbol in this rule is not declared, or has another number of arguments.
    WrongArity(u32),
    /// A variable in this rule has a number of 65,536 or more.
    BadVariable(u32),
    /// More than 4,095 symbols, 4,095 rules or 65,536 nodes of all sides together, or a side
    /// that is deeper than 1,024.
    TooMany,
    OutOfMemory,
}

impl From<OutOfMemory> for TrsFault {
    ghost use Rattle.std.specs.Prelude.{◌≡◌};
    ghost use Rattle.trs_core.specs.declared.faults.TrsFault.TheVariants as fault;

    ghost from_gives = { λ _ e. e ≡ fault.OutOfMemory };

    fn from(_e: OutOfMemory) -> TrsFault {
        TrsFault::OutOfMemory
    }
}
