ghost use Rattle.std.specs.Prelude.{◌≡◌};
ghost use Rattle.cert_step.specs.Table.{contents};

/// A table of a system: made here, or lent by who made it.
#[derive(Drop)]
pub enum Table<'t, T> {
    Made(T),
    Lent(&'t T),
}

impl<'t, T> Table<'t, T> {
    /// The table, whoever made it.
    pub fn get(&self) -> &T
        ensures { result.now ≡ contents self.now }
    {
        match self {
            Table::Made(table) => table,
            Table::Lent(table) => table,
        }
    }
}
