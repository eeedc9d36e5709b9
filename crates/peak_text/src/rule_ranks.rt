ghost use Rattle.std.specs.Prelude.{◌≡◌, ◌-◌, ◌^◌, ◌++◌, OnOk, IfOk};
ghost use Rattle.sexp_core.specs.Items.{view, views};
ghost use Rattle.sexp_core.specs.Printed.{text_of};
ghost use Rattle.text_reading.specs.Reading.{many};
ghost use Rattle.text_reading.specs.Numbers.{number};
ghost use Rattle.text_reading.specs.Seen.{seen};
ghost use Rattle.peak_text.specs.RuleRanks.{ranks, ranks_item};

use sexp_core::Sexp;
use std::alloc::Global;
use text_reading::{Read, both, keyword, place, push, put, put_numbers, read_number};
use trs_core::{GREATEST_NUMBER, OutOfMemory};

/// The rank of each rule, `(ranks number ..)`.
pub fn read_ranks(alloc: Global, item: &Sexp) -> Result<Read<Vec<u64>>, OutOfMemory>
    ensures { IfOk result (λ r. seen (λ v. v.items) r ≡ ranks (view item.now)) }
{
    let Sexp::List(at, members) = item else {
        return Ok(Err(place(item)));
    };
    let Some((head, numbers)) = members.split_first() else {
        return Ok(Err(*at));
    };
    let head = keyword(b"ranks", head);
    let numbers = read_numbers(alloc, numbers)?;
    match both(head, numbers) {
        Ok(((), numbers)) => Ok(Ok(numbers)),
        Err(at) => Ok(Err(at)),
    }
}

fn read_numbers(alloc: Global, items: &[Sexp]) -> Result<Read<Vec<u64>>, OutOfMemory>
    ensures { IfOk result (λ r.
        seen (λ v. v.items) r ≡ many (number (2 ^ 63 - 1)) (views items.now)) }
{
    let mut numbers = Ok(Vec::new(alloc));
    for item in items {
        push(&mut numbers, read_number(GREATEST_NUMBER, item))?;
    }
    Ok(numbers)
}

/// Appends the text of ranks.
pub fn put_ranks(out: &mut Vec<u8>, ranks: &[u64]) -> Result<(), OutOfMemory>
    ensures { OnOk result (out.new.items ≡ out.old.items ++ text_of (ranks_item ranks.now)) }
{
    put(out, b"(ranks")?;
    put_numbers(out, ranks)?;
    put(out, b")")?;
    Ok(())
}
