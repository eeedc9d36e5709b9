//! What a call leaves that the tree refuses for want of memory. tests/refuse runs these tests with
//! each request for memory refused in turn; undisturbed no call is refused.
use crate::systems::{Case, system};
use crate::trial::Trial;
use std::alloc::Global;
use std::test::Fail;
use trs_core::{OutOfMemory, Trs};
use worker_pool::{Claimed, Question, Verdict};

/// A claim by a seat, or a call about a ticket.
#[derive(Clone, Copy)]
enum Call {
    Claim(u32),
    Poll(u64),
    Post(u64),
    Abort(u64),
}

/// Two trees of a question. The second takes the calls of the first, but not those that the first
/// refused.
#[derive(Drop)]
struct Twins<'a> {
    first: Trial<'a>,
    second: Trial<'a>,
    refused_claims: u32,
    refused_posts: u32,
}

impl<'a> Twins<'a> {
    fn new(alloc: Global, case: &Case, trs: &'a Trs) -> Result<Twins<'a>, OutOfMemory> {
        Ok(Twins {
            first: Trial::new(alloc, case.question, trs, case.budget)?,
            second: Trial::new(alloc, case.question, trs, case.budget)?,
            refused_claims: 0,
            refused_posts: 0,
        })
    }

    /// Whether both trees show the same.
    fn agree(&self) -> bool {
        let first = self.first.tree();
        let second = self.second.tree();
        first.history_len() == second.history_len()
            && first.verdict() == second.verdict()
            && first.is_aborted() == second.is_aborted()
    }

    /// Claims by the first tree, again if it refuses; nothing if both trees differ then.
    fn first_claim(&mut self, alloc: Global, seat: u32) -> Result<Option<Claimed>, Fail> {
        if let Ok(given) = self.first.claim(alloc, seat)? {
            return Ok(Some(given));
        }
        self.refused_claims = self.refused_claims.saturating_add(1);
        if !self.agree() {
            return Ok(None);
        }
        Ok(Some(self.first.claim(alloc, seat)??))
    }

    /// Claims by both, and says whether they gave the same. A refused claim is made again.
    fn claim(&mut self, alloc: Global, seat: u32) -> Result<bool, Fail> {
        match self.first_claim(alloc, seat)? {
            Some(given) => Ok(gave_the_same(&given, &self.second.claim(alloc, seat)??)),
            None => Ok(false),
        }
    }

    /// Posts by both what is held for a ticket, and says whether they answered the same. A refused
    /// post loses what was held: the ticket goes on in both trees, and no call is about it any more.
    fn post(&mut self, ticket: u64) -> Result<bool, Fail> {
        if self.first.outcome(ticket).is_none() {
            return Ok(self.second.outcome(ticket).is_none());
        }
        match self.first.post(ticket) {
            Ok(posted) => Ok(self.second.post(ticket)? == posted),
            Err(_) => {
                self.refused_posts = self.refused_posts.saturating_add(1);
                Ok(true)
            }
        }
    }

    /// Makes a call on both, and says whether they agree.
    fn call(&mut self, alloc: Global, call: Call) -> Result<bool, Fail> {
        let is_same = match call {
            Call::Claim(seat) => self.claim(alloc, seat)?,
            Call::Poll(ticket) => self.first.poll(ticket) == self.second.poll(ticket),
            Call::Post(ticket) => self.post(ticket)?,
            Call::Abort(ticket) => self.first.abort(ticket) == self.second.abort(ticket),
        };
        Ok(is_same && self.agree())
    }

    /// Makes the calls, and says whether both agree after each of them.
    fn agree_on(&mut self, alloc: Global, calls: &[Call]) -> Result<bool, Fail> {
        for call in calls {
            if !self.call(alloc, *call)? {
                return Ok(false);
            }
        }
        Ok(true)
    }

    /// Whether both came to this end, with so many entries; a refused post may lead elsewhere.
    fn came_to(&self, entries: u64, verdict: Option<Verdict>, is_aborted: bool) -> bool {
        let tree = self.first.tree();
        self.refused_posts > 0
            || tree.history_len() == entries
                && tree.verdict() == verdict
                && tree.is_aborted() == is_aborted
    }
}

fn gave_the_same(given: &Claimed, other: &Claimed) -> bool {
    match (given, other) {
        (Claimed::Task(task), Claimed::Task(twin)) => {
            task.ticket == twin.ticket
                && task.strategy == twin.strategy
                && task.problem.same(&twin.problem)
        }
        (Claimed::Again, Claimed::Again) => true,
        (Claimed::Done, Claimed::Done) => true,
        _ => false,
    }
}

/// Ticket 0 is the step to the dependency pairs, ticket 1 the search for a loop, which has no
/// budget, ticket 2 the graph of both pairs, which leaves two problems, and ticket 3 a search that
/// is cancelled then. The others are of the first of the two problems.
const TO_AN_ABORT: [Call; 17] = [
    Call::Claim(0),
    Call::Claim(1),
    Call::Claim(2),
    Call::Poll(1),
    Call::Post(0),
    Call::Claim(3),
    Call::Claim(4),
    Call::Post(2),
    Call::Claim(0),
    Call::Poll(3),
    Call::Post(1),
    Call::Claim(1),
    Call::Claim(2),
    Call::Abort(5),
    Call::Claim(3),
    Call::Post(6),
    Call::Post(4),
];

/// The entries of seven claims, five posts, a cancelled ticket and the abort.
#[test]
fn a_refused_call_leaves_the_tree(rt: HostRuntime) -> Result<(), Fail> {
    let alloc = rt.alloc();
    let case = Case {
        question: Question::Termination,
        letters: b"fgs",
        rules: &[b"fsx>fx", b"gsx>gx"],
        budget: 0,
    };
    let trs = system(alloc, &case)?;
    let mut twins = Twins::new(alloc, &case, &trs)?;
    assert!(rt; twins.agree_on(alloc, &TO_AN_ABORT)?);
    assert!(rt; twins.came_to(14, None, true));
    println!(rt;
        "refused: claims {}, posts {}",
        twins.refused_claims, twins.refused_posts
    )?;
    Ok(())
}

/// Addition terminates, as in the tests of gates: ticket 3, the subterm criterion, wins.
const TO_A_VERDICT: [Call; 9] = [
    Call::Claim(0),
    Call::Claim(1),
    Call::Post(0),
    Call::Claim(2),
    Call::Claim(3),
    Call::Post(3),
    Call::Claim(4),
    Call::Poll(1),
    Call::Post(2),
];

/// The entries of four claims, three posts and a cancelled ticket.
#[test]
fn a_refused_call_leaves_the_verdict(rt: HostRuntime) -> Result<(), Fail> {
    let alloc = rt.alloc();
    let case = Case {
        question: Question::Termination,
        letters: b"0s+",
        rules: &[b"+0y>y", b"+sxy>s+xy"],
        budget: 1,
    };
    let trs = system(alloc, &case)?;
    let mut twins = Twins::new(alloc, &case, &trs)?;
    assert!(rt; twins.agree_on(alloc, &TO_A_VERDICT)?);
    assert!(rt; twins.came_to(8, Some(Verdict::Won(0)), false));
    println!(rt;
        "refused: claims {}, posts {}",
        twins.refused_claims, twins.refused_posts
    )?;
    Ok(())
}
