use trs_core::OutOfMemory;

/// Why entries make no table. `Twice`: an earlier entry has the symbol, or it is 8191, the pairing.
/// `TooBig`: a coefficient of the symbol passes 2^63 - 1.
#[derive(Clone, Copy, Debug, PartialEq, Eq)]
pub enum TableFault {
    Twice(u32),
    TooBig(u32),
    OutOfMemory,
}

impl From<OutOfMemory> for TableFault {
    ghost use Rattle.std.specs.Prelude.{◌≡◌};
    ghost use Rattle.poly_lin.specs.declared.faults.TableFault.TheVariants as fault;

    ghost from_gives = { λ _ e. e ≡ fault.OutOfMemory };

    fn from(_e: OutOfMemory) -> TableFault {
        TableFault::OutOfMemory
    }
}
