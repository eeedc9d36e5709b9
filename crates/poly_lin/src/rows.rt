ghost use Rattle.std.specs.Prelude.{◌≡◌, ℕ, slice_index};
ghost use Rattle.poly_lin.specs.Table.{coefficient_in};
ghost use Rattle.poly_lin.specs.Rows.{polynomial_at};

use crate::{Coefficients, LinTable, PAIRING};

/// Where a table has the coefficients of a symbol: nowhere for the pairing, in the entry of this
/// number, or the symbol has none.
#[derive(Clone, Copy)]
pub enum Row {
    Pairing,
    Entry(usize),
    Missing,
}

impl Coefficients for LinTable {
    type Row = Row;

    ghost coefficient = { λ table. coefficient_in table };

    ghost in_row = { λ table row. slice_index (polynomial_at table row) };

    fn row(&self, f: u32) -> Row {
        if f == PAIRING {
            return Row::Pairing;
        }
        match self.place(f) {
            Some(place) => Row::Entry(place),
            None => Row::Missing,
        }
    }

    fn at(&self, row: Row, i: usize) -> u64 {
        coefficient_at(self.polynomial_at(row), i)
    }
}

fn coefficient_at(polynomial: &[u64], i: usize) -> u64
    ensures { result ≡ slice_index polynomial.now i }
{
    match polynomial.get(i) {
        Some(coefficient) => *coefficient,
        None => 0,
    }
}
