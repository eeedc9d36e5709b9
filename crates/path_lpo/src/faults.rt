use trs_core::OutOfMemory;

/// Why entries make no table. `Twice`: an earlier entry has the symbol. `BadFilter`: its kept places
/// do not ascend strictly from 1 on, or it goes to place 0.
#[derive(Clone, Copy, Debug, PartialEq, Eq)]
pub enum TableFault {
    Twice(u32),
    BadFilter(u32),
    OutOfMemory,
}

impl From<OutOfMemory> for TableFault {
    ghost use Rattle.std.specs.Prelude.{◌≡◌};
    ghost use Rattle.path_lpo.specs.declared.faults.TableFault.TheVariants as fault;

    ghost from_gives = { λ _ e. e ≡ fault.OutOfMemory };

    fn from(_e: OutOfMemory) -> TableFault {
        TableFault::OutOfMemory
    }
}
