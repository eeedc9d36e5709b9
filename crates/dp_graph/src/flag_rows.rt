//! Rows of flags, a bit each. So those of 4,095 rules take 64 words.
ghost use Rattle.std.specs.Prelude.{ℕ, ◌≡◌, ◌≤◌, ◌↔◌, ◌⊎◌, OnOk, IsTrue, length};
ghost use Rattle.dp_graph.specs.FlagRows.{IsSet};

use trs_core::OutOfMemory;

/// Sets flag number `k`.
pub(crate) fn set(row: &mut Vec<u64>, k: usize) -> Result<(), OutOfMemory>
    ensures { OnOk result
        ((j : ℕ) → IsSet row.new.items j ↔ (IsSet row.old.items j ⊎ (j ≡ k))) }
{
    make_words(row, k / 64 + 1)?;
    row[k / 64] |= 1 << (k % 64);
    Ok(())
}

/// Makes room for so many words. In those that are new no flag is set.
fn make_words(row: &mut Vec<u64>, words: usize) -> Result<(), OutOfMemory>
    ensures room { OnOk result (words ≤ length row.new.items) }
    ensures flags { OnOk result
        ((j : ℕ) → IsSet row.new.items j ↔ IsSet row.old.items j) }
{
    if words <= row.len() {
        return Ok(());
    }
    row.resize(words, 0)?;
    Ok(())
}

/// Whether flag number `k` is set.
pub(crate) fn is_set(row: &[u64], k: usize) -> bool
    ensures { IsTrue result ↔ IsSet row.now k }
{
    match row.get(k / 64) {
        Some(word) => (*word >> (k % 64)) & 1 == 1,
        None => false,
    }
}
