ghost use Rattle.std.specs.Prelude.{◌≡◌};
ghost use Rattle.std.specs.Option.{option_copied};
ghost use Rattle.ari_text.specs.Least.{stands_before, comes_before, number_of_fault, earlier};
ghost use Rattle.ari_text.specs.FaultParts.{from_text, text_number, text_place, shown_place, text_number_of};
ghost use Rattle.ari_text.specs.declared.fault.AriFault.TheVariants.{OutOfMemory as no_memory};

use sexp_core::TextFault;
use std::alloc::{AllocError, AllocFailed};
use term_text::{Refusal, TermFault};

/// Why a problem text has no system. Places are byte offsets from 0. The numbers 1 to 14 are in the order of the
/// variants.
#[derive(Debug, Drop)]
pub enum AriFault {
    /// The text has no items. It never carries want of memory.
    Text(TextFault),
    /// There is no first item, or it is no list whose first member is the word `format`.
    NoFormat,
    /// The first item is another list than `(format TRS)`.
    OtherFormat(u32),
    /// An item that is no `fun` or `rule` list, or a term that is an empty list or has a list as its head.
    BadItem(u32),
    /// A name that an earlier item declares.
    Twice(u32),
    /// An arity that is no run of digits of value at most 255.
    BadArity(u32),
    /// The head of a term that is not declared.
    Unknown(u32),
    /// A term whose number of arguments is not its symbol's arity.
    WrongArity(u32),
    /// A left side that is a variable.
    LeftIsVariable(u32),
    /// An occurrence of a variable in a right side that does not occur in the left one.
    ExtraVariable(u32),
    /// A word that begins with a colon as the fourth member of an item.
    Attribute(u32),
    /// The 4,096th `fun`, the 4,096th `rule`, or the rule at which the nodes of all sides pass 65,536.
    TooMany(u32),
    /// A subterm at depth 257, where a side stands at depth 1.
    TooDeep(u32),
    OutOfMemory,
}

impl AriFault {
    /// The number of the fault, 1 to 14.
    pub fn number(&self) -> u8
        ensures { result ≡ number_of_fault self.now }
    {
        match self {
            AriFault::Text(_) => 1,
            AriFault::NoFormat => 2,
            AriFault::OtherFormat(_) => 3,
            AriFault::BadItem(_) => 4,
            AriFault::Twice(_) => 5,
            AriFault::BadArity(_) => 6,
            AriFault::Unknown(_) => 7,
            AriFault::WrongArity(_) => 8,
            AriFault::LeftIsVariable(_) => 9,
            AriFault::ExtraVariable(_) => 10,
            AriFault::Attribute(_) => 11,
            AriFault::TooMany(_) => 12,
            AriFault::TooDeep(_) => 13,
            AriFault::OutOfMemory => 14,
        }
    }

    /// The place of the fault in the text, where it has one; of a text fault its own place.
    pub fn place(&self) -> Option<u32>
        ensures { result ≡ shown_place self.now }
    {
        match self {
            AriFault::Text(fault) => text_place_of(fault),
            AriFault::NoFormat | AriFault::OutOfMemory => None,
            AriFault::OtherFormat(at)
            | AriFault::BadItem(at)
            | AriFault::Twice(at)
            | AriFault::BadArity(at)
            | AriFault::Unknown(at)
            | AriFault::WrongArity(at)
            | AriFault::LeftIsVariable(at)
            | AriFault::ExtraVariable(at)
            | AriFault::Attribute(at)
            | AriFault::TooMany(at)
            | AriFault::TooDeep(at) => Some(*at),
        }
    }

    /// The number of a text fault among its like, 1 to 5.
    pub fn text_number(&self) -> Option<u8>
        ensures { result ≡ text_number_of self.now }
    {
        let AriFault::Text(fault) = self else {
            return None;
        };
        Some(text_number_of(fault))
    }

    #[tactic(auto, unfolding(crate::specs::Least::comes_before))]
    fn comes_before(&self, other: &AriFault) -> bool
        ensures { result ≡ comes_before self.now other.now }
    {
        let (place, other_place) = (self.place(), other.place());
        stands_before(place, other_place)
            || !stands_before(other_place, place) && self.number() < other.number()
    }
}

// By places. A fault without a place is one of the whole text.
fn stands_before(place: Option<u32>, other: Option<u32>) -> bool
    ensures { result ≡ stands_before place other }
{
    match (place, other) {
        (Some(place), Some(other)) => place < other,
        (None, Some(_)) => true,
        (_, None) => false,
    }
}

fn text_number_of(fault: &TextFault) -> u8
    ensures { result ≡ text_number fault.now }
{
    match fault {
        TextFault::BadByte(_) => 1,
        TextFault::UnclosedAt(_) => 2,
        TextFault::ExtraClose(_) => 3,
        TextFault::TooDeep(_) => 4,
        TextFault::OutOfMemory => 5,
    }
}

fn text_place_of(fault: &TextFault) -> Option<u32>
    ensures { result ≡ text_place fault.now }
{
    match fault {
        TextFault::BadByte(at)
        | TextFault::UnclosedAt(at)
        | TextFault::ExtraClose(at)
        | TextFault::TooDeep(at) => Some(*at),
        TextFault::OutOfMemory => None,
    }
}

/// Keeps the fault with the least place, and at one place with the least number.
pub fn note(least: &mut Option<AriFault>, fault: AriFault)
    ensures { least.new ≡ earlier least.old fault }
{
    match least {
        None => *least = Some(fault),
        Some(known) => {
            if fault.comes_before(known) {
                *least = Some(fault);
            }
        }
    }
}

impl Refusal for AriFault {
    ghost use Rattle.ari_text.specs.Least.{lesser};
    ghost use Rattle.ari_text.specs.Faults.{ari_fault};
    ghost use Rattle.ari_text.specs.LesserLaws.{lesser_associative};

    ghost of = { ari_fault };

    ghost both = { lesser };

    ghost associative = { lesser_associative };

    fn of(fault: TermFault) -> AriFault {
        match fault {
            TermFault::EmptyList(at) | TermFault::ListAsHead(at, _) => AriFault::BadItem(at),
            TermFault::Undeclared(at) => AriFault::Unknown(at),
            TermFault::ArgumentLacks(at)
            | TermFault::ArgumentExtra(at, _)
            | TermFault::LoneSymbol(at) => AriFault::WrongArity(at),
            TermFault::NewVariable(at) => AriFault::ExtraVariable(at),
        }
    }

    fn both(self, other: AriFault) -> AriFault {
        if other.comes_before(&self) {
            other
        } else {
            self
        }
    }
}

impl From<AllocError> for AriFault {
    ghost from_gives = { λ _ e. e ≡ no_memory };

    fn from(_e: AllocError) -> AriFault {
        AriFault::OutOfMemory
    }
}

impl<T: Drop> From<AllocFailed<T>> for AriFault {
    ghost from_gives = { λ _ e. e ≡ no_memory };

    fn from(_e: AllocFailed<T>) -> AriFault {
        AriFault::OutOfMemory
    }
}

impl From<trs_core::OutOfMemory> for AriFault {
    ghost from_gives = { λ _ e. e ≡ no_memory };

    fn from(_e: trs_core::OutOfMemory) -> AriFault {
        AriFault::OutOfMemory
    }
}

impl From<TextFault> for AriFault {
    ghost from_gives = { λ f e. e ≡ from_text f };

    fn from(fault: TextFault) -> AriFault {
        match fault {
            TextFault::OutOfMemory => AriFault::OutOfMemory,
            fault => AriFault::Text(fault),
        }
    }
}
