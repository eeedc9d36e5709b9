//! Small systems, with a question each.
use std::alloc::Global;
use std::test::Fail;
use trs_core::Trs;
use worker_pool::Question;

/// A question on a system of these letters and rules, and how far searches go.
#[derive(Clone, Copy)]
pub struct Case<'a> {
    pub question: Question,
    pub letters: &'a [u8],
    pub rules: &'a [&'a [u8]],
    pub budget: u64,
}

pub fn system(alloc: Global, case: &Case) -> Result<Trs, Fail> {
    finder_cases::system(alloc, case.letters, case.rules)
}
