//! What a call leaves that a pool of terms refuses for want of memory. tests/refuse runs this test
//! with each request for memory refused in turn; undisturbed no call is refused.
use crate::made::position;
use crate::texts::{ARITIES, read, system};
use rewrite_core::StepFault;
use std::alloc::Global;
use std::test::Fail;
use term_pool::Pool;
use trs_core::{OutOfMemory, Position, Term, Trs};

/// The ids of a pool of this test, and the nodes of its terms, are fewer.
const MANY: u32 = 1_000;

/// A term to intern, or a place and a rule for a step.
#[derive(Drop)]
enum Asked {
    Term(Term),
    Step(Position, u32),
}

/// What the pool answers. A step is from the term of an id.
fn ask(
    alloc: Global,
    pool: &mut Pool,
    trs: &Trs,
    id: u32,
    asked: &Asked,
) -> Result<u32, StepFault> {
    if pool.len() > MANY {
        return Err(StepFault::TooLarge);
    }
    match asked {
        Asked::Term(t) if t.size() <= u64::from(MANY) => Ok(pool.intern(alloc, t)?),
        Asked::Step(place, rule) if id < pool.len() => {
            pool.step_at(alloc, trs, id, place, *rule)
        }
        _ => Err(StepFault::TooLarge),
    }
}

/// The answer, where memory lasted.
fn lasting(answer: Result<u32, StepFault>) -> Result<Result<u32, StepFault>, OutOfMemory> {
    if let Err(fault) = answer {
        fault.unless_no_memory()?;
    }
    Ok(answer)
}

/// The term of an id.
fn term_at(alloc: Global, pool: &Pool, id: u32) -> Result<Term, Fail> {
    if id >= pool.len() {
        return Err(Fail::new("no such id"));
    }
    Ok(pool.read(alloc, id)?)
}

/// A term's text; or a step from what an earlier call gave, by the call's number, at a place and by
/// a rule.
#[derive(Clone, Copy)]
enum Call<'a> {
    Term(&'a [u8]),
    Step(usize, &'a [u8], u32),
}

/// Two pools. The second takes the calls of the first, but not those that the first refused.
#[derive(Drop)]
struct Twins {
    first: Pool,
    second: Pool,
    /// What the calls gave, by each pool. The clauses leave open which numbers new ids have, so ids
    /// of the two are compared by their terms.
    given: Vec<(u32, u32)>,
    /// The term of each id of the first pool, as it was first read.
    terms: Vec<Term>,
    refused_terms: u32,
    refused_steps: u32,
}

impl Twins {
    fn new(alloc: Global) -> Twins {
        Twins {
            first: Pool::new(alloc),
            second: Pool::new(alloc),
            given: Vec::new(alloc),
            terms: Vec::new(alloc),
            refused_terms: 0,
            refused_steps: 0,
        }
    }

    /// Whether the first pool has no id more or less than those that were read, and each has the
    /// term that it had.
    fn is_kept(&self, alloc: Global) -> Result<bool, Fail> {
        if self.first.len() as usize != self.terms.len() {
            return Ok(false);
        }
        for (id, term) in (0..self.first.len()).zip(self.terms.iter()) {
            if !term_at(alloc, &self.first, id)?.same(term) {
                return Ok(false);
            }
        }
        Ok(true)
    }

    /// Puts down the terms of ids that are new.
    fn put_down(&mut self, alloc: Global) -> Result<(), Fail> {
        for new in 0..self.first.len() {
            if new as usize >= self.terms.len() {
                self.terms.push(term_at(alloc, &self.first, new)?)?;
            }
        }
        Ok(())
    }

    /// Puts down what a call gave, and says whether it is one term in both pools.
    fn note(&mut self, alloc: Global, id: u32, twin: u32) -> Result<bool, Fail> {
        self.given.push((id, twin))?;
        self.put_down(alloc)?;
        let term = term_at(alloc, &self.first, id)?;
        Ok(term.same(&term_at(alloc, &self.second, twin)?))
    }

    fn count(&mut self, asked: &Asked) {
        match asked {
            Asked::Term(_) => self.refused_terms = self.refused_terms.saturating_add(1),
            Asked::Step(_, _) => self.refused_steps = self.refused_steps.saturating_add(1),
        }
    }

    /// Asks both, and says whether they answer the same. The first is asked again if it refuses.
    fn ask(&mut self, alloc: Global, trs: &Trs, from: usize, asked: &Asked) -> Result<bool, Fail> {
        let (id, twin) = self.given.get(from).copied().unwrap_or((0, 0));
        let mut answer = ask(alloc, &mut self.first, trs, id, asked);
        if answer == Err(StepFault::OutOfMemory) {
            self.count(asked);
            if !self.is_kept(alloc)? {
                return Ok(false);
            }
            answer = ask(alloc, &mut self.first, trs, id, asked);
        }
        let other = ask(alloc, &mut self.second, trs, twin, asked);
        match (lasting(answer)?, lasting(other)?) {
            (Ok(id), Ok(twin)) => self.note(alloc, id, twin),
            (Err(fault), Err(other)) => Ok(fault == other && self.is_kept(alloc)?),
            _ => Ok(false),
        }
    }

    fn call(&mut self, alloc: Global, trs: &Trs, call: Call) -> Result<bool, Fail> {
        match call {
            Call::Term(text) => {
                let asked = Asked::Term(read(alloc, &ARITIES, text)?);
                self.ask(alloc, trs, 0, &asked)
            }
            Call::Step(from, place, rule) => {
                let asked = Asked::Step(position(alloc, place)?, rule);
                self.ask(alloc, trs, from, &asked)
            }
        }
    }

    /// Whether a call gave the term of this text.
    fn gave(&self, alloc: Global, call: usize, text: &[u8]) -> Result<bool, Fail> {
        let (id, _) = self.given.get(call).copied().ok_or("no such call")?;
        let given = term_at(alloc, &self.first, id)?;
        Ok(given.same(&read(alloc, &ARITIES, text)?))
    }

    /// Makes the calls, and says whether both answer the same.
    fn agree_on(&mut self, alloc: Global, trs: &Trs, calls: &[Call]) -> Result<bool, Fail> {
        for call in calls {
            if !self.call(alloc, trs, *call)? {
                return Ok(false);
            }
        }
        Ok(true)
    }

    /// Whether the terms are kept, and the calls gave those of these texts.
    fn came_to(&self, alloc: Global, given: &[(usize, &[u8])]) -> Result<bool, Fail> {
        for (call, text) in given {
            if !self.gave(alloc, *call, text)? {
                return Ok(false);
            }
        }
        self.is_kept(alloc)
    }
}

/// The steps from a tower of eight symbols make so many new terms that the pool asks for memory. The
/// last two steps are none: there is no instance of the left side, and no such place.
const CALLS: [Call; 19] = [
    Call::Term(b"cbab0"),
    Call::Step(0, &[1], 1),
    Call::Step(1, &[], 0),
    Call::Step(2, &[1], 2),
    Call::Term(b"cc01c2c3cb4b5"),
    Call::Step(4, &[1], 0),
    Call::Step(5, &[2, 2, 2, 1], 2),
    Call::Term(b"cbab0"),
    Call::Term(b"bbbbbbbb0"),
    Call::Step(8, &[], 2),
    Call::Step(8, &[1], 2),
    Call::Step(8, &[1, 1], 2),
    Call::Step(8, &[1, 1, 1], 2),
    Call::Step(8, &[1, 1, 1, 1], 2),
    Call::Step(8, &[1, 1, 1, 1, 1], 2),
    Call::Step(8, &[1, 1, 1, 1, 1, 1], 2),
    Call::Step(8, &[1, 1, 1, 1, 1, 1, 1], 2),
    Call::Step(3, &[1], 1),
    Call::Step(3, &[2, 1], 0),
];

/// What some calls give.
const GIVEN: [(usize, &[u8]); 3] = [
    (3, b"cc00a"),
    (6, b"cc10c2c3cc44b5"),
    (10, b"bcbbbbbb0bbbbbb0"),
];

/// The rules `f(x, y) -> f(y, x)`, `g(c) -> c` and `g(x) -> f(x, x)`.
const RULES: [(&[u8], &[u8]); 3] = [(b"c01", b"c10"), (b"ba", b"a"), (b"b0", b"c00")];

#[test]
fn a_refused_call_leaves_the_terms(rt: HostRuntime) -> Result<(), Fail> {
    let trs = system(rt.alloc(), &ARITIES, &RULES)?;
    let mut twins = Twins::new(rt.alloc());
    assert!(rt; twins.agree_on(rt.alloc(), &trs, &CALLS)?);
    assert!(rt; twins.given.len() == 17);
    assert!(rt; twins.came_to(rt.alloc(), &GIVEN)?);
    println!(rt;
        "refused: terms {}, steps {}",
        twins.refused_terms, twins.refused_steps
    )?;
    Ok(())
}
