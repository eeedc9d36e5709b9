//! Where the values of each symbol stand.
ghost use Rattle.std.specs.Prelude.{◌≡◌, ◌<◌, ◌≤◌, ℕ, All, length, IfOk};
ghost use Rattle.order_search.specs.Distinct.{AreDistinct};
ghost use Rattle.poly_find.specs.Spans.{AreSpans, said_by, in_span, span, span_of};

use order_search::{arity_of, value_at};
use poly_lin::Coefficients;
use std::alloc::Global;
use trs_core::OutOfMemory;

/// How many numbers of symbols there are, the marked ones among them.
const SYMBOLS: usize = 8_192;

/// So many values from one slot on.
#[derive(Clone, Copy)]
pub(crate) struct Span {
    pub(crate) start: u32,
    pub(crate) parts: u32,
}

/// The span of each symbol, by its number, the empty one where it has no slots.
pub(crate) fn spans(
    alloc: Global,
    arities: &[u8],
    symbols: &[u32],
) -> Result<Vec<Span>, OutOfMemory>
    requires distinct { AreDistinct symbols.now }
    requires small { All (λ f. f < 8192) symbols.now }
    requires few { length symbols.now ≤ 8192 }
    ensures { IfOk result (λ spans. AreSpans arities.now symbols.now spans.items) }
{
    let mut spans = no_spans(alloc, SYMBOLS)?;
    let mut start: u32 = 0;
    for f in symbols {
        let parts = arity_of(arities, *f) + 1;
        spans[*f as usize] = Span { start, parts };
        start += parts;
    }
    Ok(spans)
}

/// So many empty spans.
fn no_spans(alloc: Global, count: usize) -> Result<Vec<Span>, OutOfMemory>
    ensures count { IfOk result (λ spans. length spans.items ≡ count) }
    ensures empty { IfOk result (λ spans. (f : ℕ) → span_of spans.items f ≡ span 0 0) }
{
    Ok(vec![in alloc; Span { start: 0, parts: 0 }; count]?)
}

/// The interpretation by which each symbol has the constant and the coefficients of its span.
#[derive(Clone, Copy)]
pub(crate) struct SlotValues<'a> {
    pub(crate) spans: &'a [Span],
    pub(crate) values: &'a [u32],
}

impl<'a> Coefficients for SlotValues<'a> {
    type Row = Span;

    ghost coefficient = { λ table. said_by table.spans.now table.values.now };

    ghost in_row = { λ table row. in_span table.values.now row };

    fn row(&self, f: u32) -> Span {
        span_at(self.spans, f as usize)
    }

    fn at(&self, row: Span, i: usize) -> u64 {
        if i < row.parts as usize {
            u64::from(value_at(self.values, row.start as usize + i))
        } else {
            0
        }
    }
}

/// The span of a symbol, the empty one where it has no slots.
pub(crate) fn span_at(spans: &[Span], f: usize) -> Span
    ensures { result ≡ span_of spans.now f }
{
    match spans.get(f) {
        Some(span) => *span,
        None => Span { start: 0, parts: 0 },
    }
}
