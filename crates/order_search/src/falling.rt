//! What has to fall weakly, by its number.
ghost use Rattle.std.specs.Prelude.{◌≡◌, ◌++◌, slice_get};
ghost use Rattle.std.specs.Option.{option_copied};

use crate::LentRule;

/// Of the rules, and the pairs behind them, the one of this number.
pub fn falling_at<'a>(
    rules: &'a [LentRule<'a>],
    pairs: &'a [LentRule<'a>],
    number: usize,
) -> Option<&'a LentRule<'a>>
    ensures { option_copied result ≡ slice_get (rules.now ++ pairs.now) number }
{
    match rules.get(number) {
        Some(rule) => Some(rule),
        None => pairs.get(number - rules.len()),
    }
}
