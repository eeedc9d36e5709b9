//! Why an item is no term, and what a reader of terms answers then.
ghost use Rattle.std.specs.Prelude.{◌≡◌, min};
ghost use Rattle.term_text.specs.Refusals.{refused_at};

/// Why an item is no term. Places are byte offsets from 0.
#[derive(Clone, Copy, Debug)]
pub enum TermFault {
    /// An empty list, at its place.
    EmptyList(u32),
    /// A list at a place whose head is a list at another.
    ListAsHead(u32, u32),
    /// A head that is no symbol, at its own place.
    Undeclared(u32),
    /// A term at a place that has fewer arguments than its symbol takes.
    ArgumentLacks(u32),
    /// A term at a place that has more arguments than its symbol takes, and the place of the first one too many.
    ArgumentExtra(u32, u32),
    /// A lone word at a place that is a symbol with arguments.
    LoneSymbol(u32),
    /// A variable at a place where it is none of those that may occur.
    NewVariable(u32),
}

/// What a reader answers in place of a term: one value for all faults of an item.
pub trait Refusal: Drop {
    ghost use Rattle.term_text.specs.declared.fault.TermFault.{TermFault};

    ghost of: { TermFault → Self };

    ghost both: { Self → Self → Self };

    fn of(fault: TermFault) -> Self
        ensures { result ≡ of fault };

    /// The answer for the faults of two parts.
    fn both(self, other: Self) -> Self
        ensures { result ≡ both self other };

    ghost associative: { (p q r : Self) → both (both p q) r ≡ both p (both q r) };
}

/// The least of the places at which a certificate is refused.
impl Refusal for u32 {
    ghost use Rattle.std.specs.Prelude.{min};
    ghost use Rattle.std.proofs.Common.{arith};
    ghost use Rattle.term_text.specs.Refusals.{refused_at};

    ghost of = { refused_at };

    ghost both = { min };

    ghost associative = { λ p q r. Prim.omega arith };

    fn of(fault: TermFault) -> u32 {
        match fault {
            TermFault::EmptyList(at)
            | TermFault::ListAsHead(_, at)
            | TermFault::Undeclared(at)
            | TermFault::ArgumentLacks(at)
            | TermFault::ArgumentExtra(_, at)
            | TermFault::LoneSymbol(at)
            | TermFault::NewVariable(at) => at,
        }
    }

    fn both(self, other: u32) -> u32 {
        self.min(other)
    }
}
