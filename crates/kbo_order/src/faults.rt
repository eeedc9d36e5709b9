use trs_core::OutOfMemory;

/// Why entries make no order. `Twice`: an earlier entry has the symbol. `ConstantTooLight`: a symbol
/// with no arguments weighs 0. `TooBig`: a weight passes 2^63 - 1. `UnaryNotTop`: a symbol with one
/// argument weighs 0, and its rank is not above that of each other entry.
#[derive(Clone, Copy, Debug, PartialEq, Eq)]
pub enum KboFault {
    Twice(u32),
    ConstantTooLight(u32),
    TooBig(u32),
    UnaryNotTop(u32),
    OutOfMemory,
}

impl From<OutOfMemory> for KboFault {
    ghost use Rattle.std.specs.Prelude.{◌≡◌};
    ghost use Rattle.kbo_order.specs.declared.faults.KboFault.TheVariants as fault;

    ghost from_gives = { λ _ e. e ≡ fault.OutOfMemory };

    fn from(_e: OutOfMemory) -> KboFault {
        KboFault::OutOfMemory
    }
}
