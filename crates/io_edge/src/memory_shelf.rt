ghost use Rattle.std.specs.Prelude.{◌≡◌, ◌≤◌, [], length, option_map, IfOk, IfErr, IsNone, IsErrOf};
ghost use Rattle.io_edge.specs.Edge.{next_count};
ghost use Rattle.io_edge.specs.Shelf.{MayBe, MayPass, TellsTheSame, CountsRise, CountsFault, ReadPast};
ghost use Rattle.io_edge.specs.Named.{first_under, faults_under, bytes_under};
ghost use Rattle.io_edge.specs.ShelfState.{shelf_meaning, answer_to, texts_of, within_limit, bytes_found, bytes_read, CountsBytes, text as text_answer, too_long as too_long_answer, failed as failed_answer};
ghost use Rattle.io_edge.specs.declared.fault.FetchFault.TheVariants.{TooLong, Failed};

use crate::counts::{Reading, Tallies};
use crate::fault::FetchFault;
use crate::shelf::Shelf;
use std::alloc::Global;
use std::marker::Model;

/// Texts in memory. The calls of `fetch` are counted from 0, and those whose numbers it was given
/// fail.
#[derive(Drop)]
pub struct MemoryShelf {
    alloc: Global,
    texts: Vec<(String, Vec<u8>)>,
    failing: Vec<u64>,
    calls: u64,
    tallies: Tallies,
}

impl Model for MemoryShelf {
    ghost use Rattle.io_edge.specs.ShelfState.{ShelfState, texts_of};

    ghost Value = { ShelfState };

    ghost view = { λ s. record {
      texts = texts_of s.texts.items;
      failing = s.failing.items;
      calls = s.calls;
      tallies = s.tallies;
    } };
}

// The first text under a name.
fn text_under<'a>(texts: &'a [(String, Vec<u8>)], name: &str) -> Option<&'a [u8]>
    ensures { option_map (λ t. t.now) result ≡ first_under (texts_of texts.now) name.now }
{
    for (known, text) in texts {
        if name == known.as_str() {
            return Some(text);
        }
    }
    None
}

// What a call that does not fail by its number meets under a name.
fn copy_under(alloc: Global, texts: &[(String, Vec<u8>)], name: &str, limit: u64) -> Reading
    ensures found { IfOk result.outcome (λ v.
        within_limit (first_under (texts_of texts.now) name.now) limit ≡ text_answer v.items) }
    ensures too_long { IsErrOf result.outcome TooLong →
        within_limit (first_under (texts_of texts.now) name.now) limit ≡ too_long_answer }
    ensures failed { IsErrOf result.outcome Failed →
        within_limit (first_under (texts_of texts.now) name.now) limit ≡ failed_answer }
    ensures bytes { result.bytes ≡ bytes_found (first_under (texts_of texts.now) name.now) }
{
    let Some(text) = text_under(texts, name) else {
        return Reading::failed();
    };
    let bytes = text.len() as u64;
    let outcome = if bytes > limit {
        Err(FetchFault::TooLong)
    } else {
        copy_of(alloc, text)
    };
    Reading { outcome, bytes }
}

fn copy_of(alloc: Global, text: &[u8]) -> Result<Vec<u8>, FetchFault>
    ensures copied { IfOk result (λ v. v.items ≡ text.now) }
    ensures memory { IfErr result (λ e. e ≡ FetchFault.OutOfMemory) }
{
    Ok(Vec::from_slice(alloc, text)?)
}

impl MemoryShelf {
    /// A shelf with these names and texts, of which the first under a name counts.
    pub fn new(alloc: Global, texts: Vec<(String, Vec<u8>)>, failing: Vec<u64>) -> MemoryShelf
        ensures texts { result.texts ≡ texts_of texts.items }
        ensures failing { result.failing ≡ failing.items }
        ensures calls { result.calls ≡ 0 }
        ensures tallies { result.tallies ≡ [] }
    {
        MemoryShelf {
            alloc,
            texts,
            failing,
            calls: 0,
            tallies: Tallies::new(alloc),
        }
    }
}

impl Shelf for MemoryShelf {
    ghost means = { shelf_meaning };

    /// Each call is counted, whatever its answer. The whole length of a text that is found counts as
    /// read, also of one that is too long.
    fn fetch(&mut self, name: &str, limit: u64) -> Result<Vec<u8>, FetchFault>
        ensures whole { IfOk result (λ v. MayBe (shelf_meaning self.old) name.now v.items) }
        ensures bound { IfOk result (λ v. length v.items ≤ limit) }
        ensures too_long { IsErrOf result TooLong →
            MayPass limit (shelf_meaning self.old) name.now }
        ensures told { TellsTheSame (shelf_meaning self.old) (shelf_meaning self.new) }
        ensures faults { CountsRise
            (faults_under self.old.tallies) (faults_under self.new.tallies) name.now }
        ensures read { CountsRise
            (bytes_under self.old.tallies) (bytes_under self.new.tallies) name.now }
        ensures counted { CountsFault result
            (faults_under self.old.tallies) (faults_under self.new.tallies) name.now }
        ensures long { IsErrOf result TooLong →
            ReadPast limit (shelf_meaning self.old) (shelf_meaning self.new) name.now }

        // Which calls answer what, want of memory aside, and how the shelf stands then.
        ensures answered { IfOk result (λ v.
            answer_to self.old name.now limit ≡ text_answer v.items) }
        ensures long_answer { IsErrOf result TooLong →
            answer_to self.old name.now limit ≡ too_long_answer }
        ensures failed_answer { IsErrOf result Failed →
            answer_to self.old name.now limit ≡ failed_answer }
        ensures counted_bytes { CountsBytes result (bytes_read self.old name.now)
            (bytes_under self.old.tallies name.now) (bytes_under self.new.tallies name.now) }

        ensures calls { self.new.calls ≡ next_count self.old.calls }
        ensures texts { self.new.texts ≡ self.old.texts }
        ensures failing { self.new.failing ≡ self.old.failing }

        // Without memory for a new name no count under a name changes.
        ensures unnoted { IsNone (first_under self.new.tallies name.now) →
            self.new.tallies ≡ self.old.tallies }
    {
        let call = self.calls;
        self.calls = call.saturating_add(1);
        self.tallies.note(self.alloc, name)?;
        let reading = if self.failing.contains(&call) {
            Reading::failed()
        } else {
            copy_under(self.alloc, &self.texts, name, limit)
        };
        self.tallies.record(name, reading)
    }
}
