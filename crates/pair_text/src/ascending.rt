ghost use Rattle.std.specs.Prelude.{◌≡◌, ◌≤◌, IfOk};
ghost use Rattle.sexp_core.specs.Items.{view};
ghost use Rattle.pair_text.specs.InTurn.{number_from};

use sexp_core::Sexp;
use text_reading::{Read, place, read_number};

/// A number in decimal from `low` up to the limit, with no leading zero.
pub(crate) fn read_number_from(limit: u64, low: u64, item: &Sexp) -> Read<u64>
    ensures value { result ≡ number_from limit low (view item.now) }
    ensures low { IfOk result (λ n. low ≤ n) }
    ensures within { IfOk result (λ n. n ≤ limit) }
{
    match read_number(limit, item) {
        Ok(number) => {
            if low <= number {
                Ok(number)
            } else {
                Err(place(item))
            }
        }
        Err(at) => Err(at),
    }
}
