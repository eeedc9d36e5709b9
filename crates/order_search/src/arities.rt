//! Numbers of arguments of plain and of marked symbols.
ghost use Rattle.std.specs.Prelude.{◌≡◌, ◌<◌};
ghost use Rattle.order_search.specs.OrderSpace.{arity_with_mark, unmarked};

use dp_core::MARK;

/// How many arguments a symbol has; a marked symbol has the number of the plain one and 4,096.
pub fn arity_of(arities: &[u8], symbol: u32) -> u32
    ensures value { result ≡ arity_with_mark arities.now symbol }
    ensures byte { result < 256 }
{
    match arities.get(unmark(symbol) as usize) {
        Some(arity) => u32::from(*arity),
        None => 0,
    }
}

fn unmark(symbol: u32) -> u32
    ensures { result ≡ unmarked symbol }
{
    if symbol < MARK { symbol } else { symbol - MARK }
}
