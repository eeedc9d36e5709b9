//! Whether no variable occurs twice. Where variables are not numbered in order, each walk over a term
//! looks for some of them, the window.
ghost use Rattle.std.specs.Prelude.{◌≡◌, ◌↔◌, ◌<◌, ℕ, ◌+◌, length, IsTrue, None};
ghost use Rattle.trs_defs.specs.Tree.{var};
ghost use Rattle.trs_defs.specs.LeastVariable.{least_variable};
ghost use Rattle.trs_defs.specs.Variable.{IsLinear};
ghost use Rattle.trs_core.specs.View.{tree};
ghost use Rattle.trs_core.specs.Marked.{times_met, Marks, OccurOnce};

use crate::Term;
use crate::in_order::{Disorder, count_in_order};
use crate::least::better;

/// How many variables one walk looks for.
const WINDOW: usize = 1_024;

impl Term {
    /// Whether no variable occurs twice. (Baader and Nipkow, definition 6.3.1.) It takes no memory,
    /// and one walk over the term where the variables are numbered in the order in which they stand,
    /// otherwise one for a thousand variables.
    pub fn is_linear(&self) -> bool
        ensures { IsTrue result ↔ IsLinear (tree self.now) }
    {
        match count_in_order(self, &mut 0) {
            Ok(()) => true,
            Err(Disorder::Twice) => false,
            Err(Disorder::OutOfOrder) => self.is_linear_by_windows(),
        }
    }

    fn is_linear_by_windows(&self) -> bool
        ensures { IsTrue result ↔ IsLinear (tree self.now) }
    {
        let mut next = Some(0);
        while let Some(from) = next {
            next = None;
            if !occur_once(from, self, &mut next) {
                return false;
            }
        }
        true
    }
}

/// Whether no variable from a number on, of those that one walk looks for, occurs twice. The walk
/// finds the least variable behind them too, which the next one begins with.
fn occur_once(from: u32, t: &Term, next: &mut Option<u32>) -> bool
    ensures once { IsTrue result ↔ OccurOnce WINDOW from (tree t.now) }
    ensures next { IsTrue result → next.new ≡ least_variable (from + WINDOW) next.old (tree t.now) }
{
    let mut marks = no_marks();
    mark_variables(from, t, &mut marks, next)
}

fn no_marks() -> [bool; WINDOW]
    ensures length { length result ≡ WINDOW }
    ensures none { (i : ℕ) → i < WINDOW → times_met result i ≡ 0 }
{
    [false; WINDOW]
}

/// Marks the variables of a term. The answer is whether each is met for the first time.
fn mark_variables(from: u32, t: &Term, marks: &mut [bool; WINDOW], next: &mut Option<u32>) -> bool
    ensures length { length marks.new ≡ WINDOW }
    ensures marks { Marks WINDOW from (tree t.now) marks.old marks.new result }
    ensures next { IsTrue result → next.new ≡ least_variable (from + WINDOW) next.old (tree t.now) }
{
    match t {
        Term::Var(x) => {
            *next = better(u64::from(from) + WINDOW as u64, *next, *x);
            mark(from, *x, marks)
        }
        Term::App(_, args) => {
            for arg in &args.items {
                if !mark_variables(from, arg, marks, next) {
                    return false;
                }
            }
            true
        }
    }
}

/// Marks a variable, if the window has it. The answer is whether it is met for the first time.
fn mark(from: u32, x: u32, marks: &mut [bool; WINDOW]) -> bool
    ensures length { length marks.new ≡ WINDOW }
    ensures marks { Marks WINDOW from (var x) marks.old marks.new result }
{
    if x < from {
        return true;
    }
    let place = (x - from) as usize;
    if place >= WINDOW {
        return true;
    }
    if marks[place] {
        return false;
    }
    marks[place] = true;
    true
}
