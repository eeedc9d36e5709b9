ghost use Rattle.std.specs.Prelude.{◌≡◌, ◌++◌, [], ◌∷◌, ℕ, List, length, min, false, Ok, Err, IfSome, IfNone, OnOk};
ghost use Rattle.rewrite_core.specs.ShiftedPath.{shifted_path};
ghost use Rattle.text_reading.specs.Reading.{chosen};
ghost use Rattle.path_text.specs.Sharing.{nothing_defined, path_weight, longest_place};
ghost use Rattle.path_text.specs.Parts.{room_left};
ghost use Rattle.path_text.specs.Measures.{AreMeasures};
ghost use Rattle.path_text.specs.Pieces.{steps_of_path};
ghost use Rattle.path_text.specs.Paths.{is_too_deep};
ghost use Rattle.path_text.specs.Defining.{is_defined};

use crate::pieces::KeptPath;
use names_text::Names;
use rewrite_core::PathStep;
use std::alloc::Global;
use std::marker::Model;
use trs_core::{OutOfMemory, Position};

/// What all paths of a text may weigh together.
pub const MOST_WEIGHT: u64 = 8_388_608;

/// The most numbers of a place behind a position.
const LONGEST_PLACE: usize = 1_024;

/// A path with its measures, so that those of its uses are known without a look at its steps.
#[derive(Drop)]
pub struct DefinedPath {
    path: KeptPath,
    /// The number of steps.
    count: usize,
    /// The numbers of the longest place.
    longest: usize,
    weight: u64,
}

impl Model for DefinedPath {
    ghost use Rattle.std.specs.Prelude.{List};
    ghost use Rattle.std.specs.Coded.{coded_list};
    ghost use Rattle.trs_defs.specs.Path.{PlacedRule, placed_code};

    ghost Value = { List PlacedRule };

    ghost coded = { coded_list placed_code };

    ghost use Rattle.path_text.specs.Measures.{AreMeasures};
    ghost use Rattle.path_text.specs.Pieces.{steps_of_path};

    ghost view = { λ p. steps_of_path p.path };

    ghost invariant = { λ p. AreMeasures (steps_of_path p.path) p.count p.longest p.weight };
}

/// The words that are defined, each once, with their paths. Contracts see the list of the words
/// and paths, in the order of the text.
#[derive(Drop)]
pub struct Definitions {
    words: Names,
    paths: Vec<DefinedPath>,
}

impl Model for Definitions {
    ghost use Rattle.std.specs.Prelude.{◌≡◌, ℕ, List, length};
    ghost use Rattle.std.specs.List.{zip};
    ghost use Rattle.std.specs.Coded.{coded_list, coded×, coded_ℕ};
    ghost use Rattle.trs_defs.specs.Path.{PlacedRule, placed_code};

    ghost Value = { List (List ℕ × List PlacedRule) };

    ghost coded = { coded_list (coded× (coded_list coded_ℕ) (coded_list placed_code)) };

    ghost view = { λ d. zip d.words d.paths.items };

    ghost invariant = { λ d. length d.words ≡ length d.paths.items };
}

/// What the paths of a text of version 2 share: the definitions so far, and the weight that is
/// left for further paths. A step weighs 1 and the numbers of its place.
#[derive(Drop)]
pub struct Shared {
    pub definitions: Definitions,
    pub room: u64,
}

impl Shared {
    /// No word is defined yet, and no path was read.
    pub fn new(alloc: Global) -> Shared
        ensures { result ≡ nothing_defined }
    {
        Shared {
            definitions: Definitions::new(alloc),
            room: MOST_WEIGHT,
        }
    }
}

impl Definitions {
    pub fn new(alloc: Global) -> Definitions
        ensures { result ≡ [] }
    {
        Definitions {
            words: Names::new(alloc),
            paths: Vec::new(alloc),
        }
    }

    /// The path that a word stands for.
    pub fn find(&self, word: &[u8]) -> Option<&DefinedPath>
        ensures found { IfSome result (λ p. (at : ℕ) → chosen self.now at word.now ≡ Ok p.now) }
        ensures none { IfNone result ((at : ℕ) → chosen self.now at word.now ≡ Err at) }
    {
        let Some(number) = self.words.find(word) else {
            return None;
        };
        Some(&self.paths[number])
    }

    /// Whether a word is defined.
    pub fn is_defined(&self, word: &[u8]) -> bool
        ensures { result ≡ is_defined self.now word.now }
    {
        self.words.find(word).is_some()
    }

    /// One more word with its path. It is not defined yet.
    pub fn add(&mut self, word: Vec<u8>, path: DefinedPath) -> Result<(), OutOfMemory>
        requires { is_defined self.old word.items ≡ false }
        ensures { OnOk result (self.new ≡ self.old ++ (word.items, path) ∷ []) }
    {
        self.paths.push(path)?;
        match self.words.add(word) {
            Ok(()) => Ok(()),
            Err(_) => {
                self.paths.pop();
                Err(OutOfMemory)
            }
        }
    }
}

impl DefinedPath {
    pub(crate) fn new(path: KeptPath, count: usize, longest: usize, weight: u64) -> DefinedPath
        requires { AreMeasures (steps_of_path path) count longest weight }
        ensures { result ≡ steps_of_path path }
    {
        DefinedPath {
            path,
            count,
            longest,
            weight,
        }
    }

    /// Appends the steps to others, with a position in front of each place.
    pub fn write_out(
        &self,
        alloc: Global,
        steps: &mut Vec<PathStep>,
        by: &Position,
    ) -> Result<(), OutOfMemory>
        ensures { OnOk result (steps.new.items ≡ steps.old.items ++ shifted_path by.now self.now) }
    {
        self.path.write_out(alloc, steps, by)
    }

    pub(crate) fn path(&self) -> &KeptPath
        ensures { steps_of_path result.now ≡ self.now }
    {
        &self.path
    }

    /// The number of steps.
    pub(crate) fn count(&self) -> usize
        ensures { result ≡ length self.now }
    {
        self.count
    }

    /// Whether a place of the path, put behind a position, would have more than 1,024 numbers. At
    /// the whole term none is too long.
    pub(crate) fn is_too_deep_at(&self, position: &Position) -> bool
        ensures { result ≡ is_too_deep position.now self.now }
    {
        let by = position.places().len();
        if by == 0 {
            return false;
        }
        if self.count == 0 {
            return false;
        }
        by.saturating_add(self.longest) > LONGEST_PLACE
    }

    /// The numbers of the longest place behind a position. It stands still at the last `usize`.
    pub(crate) fn longest_at(&self, position: &Position) -> usize
        ensures { result ≡ min (longest_place (shifted_path position.now self.now)) usize.MAX }
    {
        if self.count == 0 {
            return 0;
        }
        position.places().len().saturating_add(self.longest)
    }

    /// What is left of a weight behind the path at a position of so many numbers; none where it
    /// weighs more.
    pub(crate) fn room_behind(&self, room: u64, by: usize) -> Option<u64>
        ensures { (position : List ℕ) → length position ≡ by
            → result ≡ room_left room (path_weight (shifted_path position self.now)) }
    {
        let more = (by as u64).checked_mul(self.count as u64)?;
        let weight = self.weight.checked_add(more)?;
        room.checked_sub(weight)
    }
}
