//! Subterms by numbers, each over the numbers of its arguments.
ghost use Rattle.std.specs.Prelude.{◌≡◌, IfOk, IfSome, IsTrue};
ghost use Rattle.trs_core.specs.View.{tree};
ghost use Rattle.poly_lin.specs.Subterms.{AreOfArguments, AreOverEarlier, HaveOneRoot, IsNumberOf};
ghost use Rattle.poly_lin.specs.Subterms.{Keeps, are_at_prop, itself, terms};

use std::alloc::Global;
use trs_core::{OutOfMemory, Term};

/// The most slots.
const MOST_SLOTS: u64 = 1 << 18;

/// No number of a subterm.
const FREE: u32 = u32::MAX;

/// A subterm, with the numbers of its arguments.
#[derive(Drop)]
pub(crate) struct Subterm<'a> {
    pub(crate) term: &'a Term,
    pub(crate) args: Vec<u32>,
}

/// Subterms by their numbers, which go from 0, arguments first. A subterm has one number wherever it
/// stands, unless another one took its slot.
#[derive(Drop)]
pub(crate) struct Listing<'a> {
    pub(crate) nodes: Vec<Subterm<'a>>,
    slots: Vec<u32>,
    ghost earlier: { AreOverEarlier nodes.items } by { Prim.hlevel (are_at_prop) },
}

impl<'a> Listing<'a> {
    /// No subterms, and slots for those of terms with so many nodes.
    pub(crate) fn new(alloc: Global, nodes: u64) -> Result<Listing<'a>, OutOfMemory> {
        let slots = nodes.saturating_mul(2).min(MOST_SLOTS).next_power_of_two();
        Ok(Listing {
            nodes: Vec::new(alloc),
            slots: vec![in alloc; FREE; slots as usize]?,
        })
    }

    /// The number of a term, whose subterms get numbers too.
    pub(crate) fn add(&mut self, alloc: Global, t: &'a Term) -> Result<u32, OutOfMemory>
        ensures number { IfOk result (λ n. IsNumberOf self.new.nodes.items n (tree t.now)) }
        ensures kept { Keeps self.old.nodes.items self.new.nodes.items }
    {
        match t {
            Term::Var(_) => self.number(t, Vec::new(alloc)),
            Term::App(_, args) => {
                let mut numbers = Vec::with_capacity(alloc, args.items.len())?;
                for arg in &args.items {
                    numbers.push(self.add(alloc, arg)?)?;
                }
                self.number(t, numbers)
            }
        }
    }

    /// The number of a term over arguments of these numbers.
    fn number(&mut self, t: &'a Term, args: Vec<u32>) -> Result<u32, OutOfMemory>
        requires { AreOfArguments itself (terms self.old.nodes.items) args.items (tree t.now) }
        ensures number { IfOk result (λ n. IsNumberOf self.new.nodes.items n (tree t.now)) }
        ensures kept { Keeps self.old.nodes.items self.new.nodes.items }
    {
        let slot = self.slot(t, &args);
        match self.found(slot, t, &args) {
            Some(n) => Ok(n),
            None => self.push(slot, t, args),
        }
    }

    /// The slot where the number of a term is, or is to be put.
    fn slot(&self, t: &Term, args: &[u32]) -> usize {
        hash(t, args) as usize & self.slots.len().saturating_sub(1)
    }

    /// The number at a slot, if it is that of the term.
    fn found(&self, slot: usize, t: &Term, args: &[u32]) -> Option<u32>
        requires { AreOfArguments itself (terms self.now.nodes.items) args.now (tree t.now) }
        ensures { IfSome result (λ n. IsNumberOf self.now.nodes.items n (tree t.now)) }
    {
        let n = *self.slots.get(slot)?;
        let other = self.nodes.get(n as usize)?;
        if have_one_root(other.term, t) && other.args.as_slice() == args {
            Some(n)
        } else {
            None
        }
    }

    fn push(&mut self, slot: usize, t: &'a Term, args: Vec<u32>) -> Result<u32, OutOfMemory>
        requires { AreOfArguments itself (terms self.old.nodes.items) args.items (tree t.now) }
        ensures number { IfOk result (λ n. IsNumberOf self.new.nodes.items n (tree t.now)) }
        ensures kept { Keeps self.old.nodes.items self.new.nodes.items }
    {
        let n = self.nodes.len();
        if n >= FREE as usize {
            return Err(OutOfMemory);
        }
        self.nodes.push(Subterm { term: t, args })?;
        put(&mut self.slots, slot, n as u32);
        Ok(n as u32)
    }
}

fn put(slots: &mut Vec<u32>, slot: usize, n: u32) {
    if let Some(place) = slots.get_mut(slot) {
        *place = n;
    }
}

fn have_one_root(s: &Term, t: &Term) -> bool
    ensures { IsTrue result → HaveOneRoot (tree s.now) (tree t.now) }
{
    match (s, t) {
        (Term::Var(x), Term::Var(y)) => *x == *y,
        (Term::App(f, _), Term::App(g, _)) => *f == *g,
        _ => false,
    }
}

/// A number that is seldom the same for two terms.
fn hash(t: &Term, args: &[u32]) -> u64 {
    let mut hash = match t {
        Term::Var(x) => u64::from(*x) << 1,
        Term::App(f, _) => (u64::from(*f) << 1) | 1,
    };
    for n in args {
        hash = mixed(hash ^ u64::from(*n));
    }
    mixed(hash)
}

/// Each bit of it depends on all bits of the number.
fn mixed(n: u64) -> u64 {
    let once = n.wrapping_mul(0x9E37_79B9_7F4A_7C15);
    once ^ (once >> 32)
}
