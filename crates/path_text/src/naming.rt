ghost use Rattle.std.specs.Prelude.{◌≡◌, ◌++◌, [], ◌∷◌, ◌<◌, length, take, slice_get, Some, None, List, IfSome, OnOk};
ghost use Rattle.std.specs.List.{AllByRecursion};
ghost use Rattle.trs_defs.specs.Path.{PlacedRule};
ghost use Rattle.path_text.specs.PathNames.{path_number};
ghost use Rattle.path_text.specs.Ranges.{IsPlacedInRange};
ghost use Rattle.path_text.specs.PathTexts.{path_text};

use names_text::Names;
use rewrite_core::PathStep;
use std::alloc::Global;
use std::marker::Model;
use trs_core::OutOfMemory;

/// Paths by their numbers, each once; those that have names in a printed text are p0, p1 and so
/// on. Contracts see the list of the paths.
#[derive(Drop)]
pub struct PathNames<'p> {
    texts: Names,
    paths: Vec<&'p [PathStep]>,
}

impl<'p> Model for PathNames<'p> {
    ghost use Rattle.std.specs.Prelude.{◌≡◌, List, map};
    ghost use Rattle.std.specs.Coded.{coded_list};
    ghost use Rattle.trs_defs.specs.Path.{PlacedRule, placed_code};
    ghost use Rattle.path_text.specs.PathTexts.{HasTexts};

    ghost Value = { List (List PlacedRule) };

    ghost coded = { coded_list (coded_list placed_code) };

    ghost view = { λ n. map (λ p. p.now) n.paths.items };

    ghost invariant = { λ n. HasTexts n.texts (map (λ p. p.now) n.paths.items) };
}

impl<'p> PathNames<'p> {
    pub fn new(alloc: Global) -> PathNames<'p>
        ensures { result ≡ [] }
    {
        PathNames {
            texts: Names::new(alloc),
            paths: Vec::new(alloc),
        }
    }

    pub fn len(&self) -> usize
        ensures { result ≡ length self.now }
    {
        self.paths.len()
    }

    /// The path with a number.
    pub fn get(&self, number: usize) -> &'p [PathStep]
        requires { number < length self.now }
        ensures path { slice_get self.now number ≡ Some result.now }
        ensures alone { path_number (take number self.now) result.now ≡ None }
    {
        self.paths[number]
    }

    /// The text of the path with a number.
    pub fn text(&self, number: usize) -> &[u8]
        requires { number < length self.now }
        ensures text { (path : List PlacedRule) → slice_get self.now number ≡ Some path
            → result.now ≡ path_text path }
        ensures range { (path : List PlacedRule) → slice_get self.now number ≡ Some path
            → AllByRecursion IsPlacedInRange path }
    {
        self.texts.get(number)
    }

    /// The number of the path with a text.
    pub fn find(&self, text: &[u8]) -> Option<usize>
        ensures number { (path : List PlacedRule) → AllByRecursion IsPlacedInRange path
            → text.now ≡ path_text path → result ≡ path_number self.now path }
        ensures within { IfSome result (λ k. k < length self.now) }
    {
        self.texts.find(text)
    }

    /// One more path, which is not among them, with its text.
    pub fn add(&mut self, path: &'p [PathStep], text: Vec<u8>) -> Result<(), OutOfMemory>
        requires range { AllByRecursion IsPlacedInRange path.now }
        requires text { text.items ≡ path_text path.now }
        requires new { path_number self.old path.now ≡ None }
        ensures { OnOk result (self.new ≡ self.old ++ path.now ∷ []) }
    {
        self.paths.push(path)?;
        match self.texts.add(text) {
            Ok(()) => Ok(()),
            Err(_) => {
                self.paths.pop();
                Err(OutOfMemory)
            }
        }
    }
}
