ghost use Rattle.std.specs.Prelude.{ℕ};
ghost use Rattle.poly_lin.specs.TooBig.{counting};

use crate::Coefficients;

/// A table by which each argument counts: for a coefficient of 0 it has 1. By it nothing is greater in
/// the polynomial of a subterm than in that of the whole term.
#[derive(Drop)]
pub(crate) struct Counting<'a, T> {
    pub(crate) table: &'a T,
}

impl<'a, T: Coefficients> Coefficients for Counting<'a, T> {
    type Row = T::Row;

    ghost coefficient = { λ counted f. counting (T.coefficient counted.table.now f) };

    ghost in_row = { λ counted row. counting (T.in_row counted.table.now row) };

    fn row(&self, f: u32) -> T::Row {
        self.table.row(f)
    }

    fn at(&self, row: T::Row, i: usize) -> u64 {
        let coefficient = self.table.at(row, i);
        if i == 0 {
            return coefficient;
        }
        coefficient.max(1)
    }
}
