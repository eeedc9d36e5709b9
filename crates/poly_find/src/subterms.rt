//! The different subterms of rules that are not small.
ghost use Rattle.std.specs.Prelude.{◌≡◌, ◌<◌, ◌^◌, Some, length, slice_get, IfOk, IfSome};
ghost use Rattle.poly_find.specs.RuleSubterms.{AreOf, AreOfEach};

use crate::comparing::flag_at;
use order_search::LentRule;
use poly_lin::Subterms;
use std::alloc::Global;
use trs_core::OutOfMemory;

/// Of each rule its subterms, if it is not small and a list of them is a help.
pub(crate) fn subterms_of_rules<'a>(
    alloc: Global,
    small: &[bool],
    rules: &[LentRule<'a>],
) -> Result<Vec<Option<Subterms<'a>>>, OutOfMemory>
    ensures each { IfOk result (λ listed. AreOfEach rules.now listed.items) }
    ensures count { IfOk result (λ listed. length listed.items ≡ length rules.now) }
{
    let mut listed = Vec::with_capacity(alloc, rules.len())?;
    for (k, rule) in rules.iter().enumerate() {
        listed.push(subterms_of(alloc, flag_at(small, k), rule)?)?;
    }
    Ok(listed)
}

fn subterms_of<'a>(
    alloc: Global,
    small: bool,
    rule: &LentRule<'a>,
) -> Result<Option<Subterms<'a>>, OutOfMemory>
    ensures { IfOk result (λ found. IfSome found (AreOf rule.now)) }
{
    if small {
        return Ok(None);
    }
    Subterms::of(alloc, rule.left, rule.right)
}

/// Those that are listed at a number, if there are any.
pub(crate) fn subterms_at<'a, 'b>(
    listed: &'a [Option<Subterms<'b>>],
    number: usize,
) -> Option<&'a Subterms<'b>>
    ensures { IfSome result (λ found. slice_get listed.now number ≡ Some (Some found.now)) }
{
    match listed.get(number) {
        Some(Some(subterms)) => Some(subterms),
        _ => None,
    }
}
