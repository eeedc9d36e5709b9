ghost use Rattle.std.specs.Prelude.{◌≡◌, ◌≢◌, ◌≤◌, ℕ, List, [], OnOk, OnErr, IsSome};
ghost use Rattle.io_edge.specs.Edge.{next_count, count_after};
ghost use Rattle.io_edge.specs.Shelf.{CountsRise, CountsFault};
ghost use Rattle.io_edge.specs.Named.{first_under, faults_under, bytes_under};

use crate::fault::FetchFault;
use std::alloc::{AllocError, Global};
use std::collections::BTreeMap;
use std::marker::Model;

/// What was counted under a name: faults, and bytes that were read.
#[derive(Clone, Copy, Debug, PartialEq, Eq)]
pub struct Tally {
    pub faults: u64,
    pub bytes: u64,
}

/// Counts by name. A name that has no entry has no faults and no bytes read.
#[derive(Drop)]
pub struct Tallies {
    tallies: BTreeMap<String, Tally>,
}

impl Model for Tallies {
    ghost use Rattle.std.specs.Prelude.{ℕ, List};
    ghost use Rattle.io_edge.specs.Named.{by_name};
    ghost use Rattle.io_edge.specs.declared.counts.Tally.{Tally as Counted};

    ghost Value = { List (List ℕ × Counted) };

    ghost view = { λ c. by_name c.tallies.entries };
}

/// What a call that was to fetch a text met: its outcome, and how many bytes it read.
#[derive(Drop)]
pub struct Reading {
    pub outcome: Result<Vec<u8>, FetchFault>,
    pub bytes: u64,
}

impl Reading {
    /// A failure with no byte read.
    pub fn failed() -> Reading
        ensures outcome { result.outcome ≡ Err FetchFault.Failed }
        ensures bytes { result.bytes ≡ 0 }
    {
        Reading {
            outcome: Err(FetchFault::Failed),
            bytes: 0,
        }
    }
}

// A count after so much more, which stays at its last value.
fn add(count: u64, by: u64) -> u64
    ensures next { result ≡ count_after by count }
    ensures later { count ≤ result }
{
    count.saturating_add(by)
}

impl Tallies {
    pub fn new(alloc: Global) -> Tallies
        ensures { result ≡ [] }
    {
        Tallies {
            tallies: BTreeMap::new(alloc),
        }
    }

    /// Makes an entry for a name that has none.
    #[tactic(auto, using(std::proofs::lemmas::Map::Text::text_keys, crate::proofs::Counting::found_by_name))]
    pub fn note(&mut self, alloc: Global, name: &str) -> Result<(), AllocError>
        ensures faults { (q : List ℕ) → faults_under self.new q ≡ faults_under self.old q }
        ensures bytes { (q : List ℕ) → bytes_under self.new q ≡ bytes_under self.old q }
        ensures noted { OnOk result (IsSome (first_under self.new name.now)) }
        ensures unchanged { OnErr result (self.new ≡ self.old) }
    {
        if self.tallies.get(name).is_none() {
            let key = String::from_str(alloc, name)?;
            let blank = Tally {
                faults: 0,
                bytes: 0,
            };
            self.tallies.insert(key, blank)?;
        }
        Ok(())
    }

    #[tactic(auto, using(std::proofs::lemmas::Map::Text::text_keys, crate::proofs::Counting::found_by_name))]
    fn raise(&mut self, name: &str, faults: u64, bytes: u64)
        requires { IsSome (first_under self.old name.now) }
        ensures noted { IsSome (first_under self.new name.now) }
        ensures faults { faults_under self.new name.now ≡
            count_after faults (faults_under self.old name.now) }
        ensures bytes { bytes_under self.new name.now ≡
            count_after bytes (bytes_under self.old name.now) }
        ensures later { faults_under self.old name.now ≤ faults_under self.new name.now }
        ensures read { bytes_under self.old name.now ≤ bytes_under self.new name.now }
        ensures other_faults { (q : List ℕ) → q ≢ name.now →
            faults_under self.new q ≡ faults_under self.old q }
        ensures other_bytes { (q : List ℕ) → q ≢ name.now →
            bytes_under self.new q ≡ bytes_under self.old q }
    {
        if let Some(tally) = self.tallies.get_mut(name) {
            tally.faults = add(tally.faults, faults);
            tally.bytes = add(tally.bytes, bytes);
        }
    }

    /// The outcome of a call for a name that was noted: a failure is counted as a fault.
    #[tactic(auto, using(crate::proofs::Counting::rises_at))]
    pub fn record(&mut self, name: &str, reading: Reading) -> Result<Vec<u8>, FetchFault>
        requires { IsSome (first_under self.old name.now) }
        ensures noted { IsSome (first_under self.new name.now) }
        ensures same { result ≡ reading.outcome }
        ensures counted { CountsFault result
            (faults_under self.old) (faults_under self.new) name.now }
        ensures bytes { bytes_under self.new name.now ≡
            count_after reading.bytes (bytes_under self.old name.now) }
        ensures faults { CountsRise (faults_under self.old) (faults_under self.new) name.now }
        ensures read { CountsRise (bytes_under self.old) (bytes_under self.new) name.now }
    {
        let faults = match reading.outcome {
            Err(FetchFault::Failed) => 1,
            Ok(_) | Err(FetchFault::TooLong) | Err(FetchFault::OutOfMemory) => 0,
        };
        self.raise(name, faults, reading.bytes);
        reading.outcome
    }
}
