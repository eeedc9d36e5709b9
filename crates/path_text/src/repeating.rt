ghost use Rattle.std.specs.Prelude.{◌≡◌, ◌++◌, [], ◌∷◌, nat_le, map, is_some, None, if◌then◌else◌, IfOk, OnOk};
ghost use Rattle.std.specs.List.{AllByRecursion};
ghost use Rattle.path_text.specs.Sharing.{path_weight, paths_weight};
ghost use Rattle.path_text.specs.Parts.{room_left};
ghost use Rattle.path_text.specs.PathNames.{path_number, distinct_behind, repeated_paths as repeated, printed_weight};
ghost use Rattle.path_text.specs.PathTexts.{path_text as text_of_path};
ghost use Rattle.path_text.specs.Ranges.{IsPlacedInRange};
ghost use Rattle.path_text.specs.Repeating.{AreSeen, with_missing, again_behind};

use crate::naming::PathNames;
use crate::parts::room_behind_path;
use crate::printing::put_plain_path;
use crate::sharing::MOST_WEIGHT;
use rewrite_core::PathStep;
use std::alloc::Global;
use trs_core::OutOfMemory;

/// The bytes for which room is made for each step of a path, so that few texts outgrow it.
const ROOM_FOR_A_STEP: usize = 24;

/// The paths of at least one step that occur in a list, and those that occur more than once.
#[derive(Drop)]
pub struct SeenPaths<'p> {
    pub known: PathNames<'p>,
    pub again: PathNames<'p>,
}

/// The paths of at least one step that occur more than once in a list, each once, in the order of
/// their first occurrences.
pub fn repeated_paths<'p>(
    alloc: Global,
    paths: &[&'p [PathStep]],
) -> Result<PathNames<'p>, OutOfMemory>
    ensures { IfOk result (λ names. names ≡ repeated (map (λ p. p.now) paths.now)) }
{
    if paths.len() < 2 {
        return Ok(PathNames::new(alloc));
    }
    let seen = seen_paths(alloc, paths)?;
    let mut names = PathNames::new(alloc);
    for k in 0..seen.known.len() {
        keep_path(
            alloc,
            &mut names,
            &seen.again,
            seen.known.get(k),
            seen.known.text(k),
        )?;
    }
    Ok(names)
}

/// One more path with its text, if it is among those that occur more than once.
fn keep_path<'p>(
    alloc: Global,
    names: &mut PathNames<'p>,
    again: &PathNames<'_>,
    path: &'p [PathStep],
    text: &[u8],
) -> Result<(), OutOfMemory>
    requires new { path_number names.old path.now ≡ None }
    requires text { text.now ≡ text_of_path path.now }
    requires range { AllByRecursion IsPlacedInRange path.now }
    ensures { OnOk result (names.new ≡ (if is_some (path_number again.now path.now)
        then names.old ++ path.now ∷ [] else names.old)) }
{
    match again.find(text) {
        None => Ok(()),
        Some(_) => names.add(path, Vec::from_slice(alloc, text)?),
    }
}

fn seen_paths<'p>(alloc: Global, paths: &[&'p [PathStep]]) -> Result<SeenPaths<'p>, OutOfMemory>
    ensures known { IfOk result (λ s. s.known ≡ distinct_behind [] (map (λ p. p.now) paths.now)) }
    ensures seen { IfOk result (λ s. AreSeen s.known s.again (map (λ p. p.now) paths.now)) }
{
    let mut known = PathNames::new(alloc);
    let mut again = PathNames::new(alloc);
    for path in paths {
        see_path(alloc, &mut known, &mut again, path)?;
    }
    Ok(SeenPaths { known, again })
}

/// One more path of a list.
fn see_path<'p>(
    alloc: Global,
    known: &mut PathNames<'p>,
    again: &mut PathNames<'p>,
    path: &'p [PathStep],
) -> Result<(), OutOfMemory>
    ensures known { OnOk result (known.new ≡ distinct_behind known.old (path.now ∷ [])) }
    ensures again { OnOk result (again.new ≡ again_behind known.old again.old path.now) }
{
    if path.is_empty() {
        return Ok(());
    }
    let text = path_text(alloc, path)?;
    see_full_path(known, again, path, text)?;
    Ok(())
}

/// One more path of at least one step, with its text.
fn see_full_path<'p>(
    known: &mut PathNames<'p>,
    again: &mut PathNames<'p>,
    path: &'p [PathStep],
    text: Vec<u8>,
) -> Result<(), OutOfMemory>
    requires range { AllByRecursion IsPlacedInRange path.now }
    requires text { text.items ≡ text_of_path path.now }
    ensures known { OnOk result (known.new ≡ with_missing known.old path.now) }
    ensures again { OnOk result (again.new ≡ (if is_some (path_number known.old path.now)
        then with_missing again.old path.now else again.old)) }
{
    match known.find(&text) {
        None => known.add(path, text),
        Some(_) => add_missing(again, path, text),
    }
}

/// A path, if it is not among them.
fn add_missing<'p>(
    names: &mut PathNames<'p>,
    path: &'p [PathStep],
    text: Vec<u8>,
) -> Result<(), OutOfMemory>
    requires range { AllByRecursion IsPlacedInRange path.now }
    requires text { text.items ≡ text_of_path path.now }
    ensures { OnOk result (names.new ≡ with_missing names.old path.now) }
{
    match names.find(&text) {
        None => names.add(path, text),
        Some(_) => Ok(()),
    }
}

/// The text of a path, step by step.
fn path_text(alloc: Global, path: &[PathStep]) -> Result<Vec<u8>, OutOfMemory>
    ensures text { IfOk result (λ text. text.items ≡ text_of_path path.now) }
    ensures range { IfOk result (λ _. AllByRecursion IsPlacedInRange path.now) }
{
    let mut text = Vec::with_capacity(alloc, path.len().saturating_mul(ROOM_FOR_A_STEP))?;
    put_plain_path(&mut text, path)?;
    Ok(text)
}

/// Whether a text of version 2 with these paths, printed with names for those that occur more than
/// once, is within the weight that all its paths may have.
pub fn fits_printed(alloc: Global, paths: &[&[PathStep]]) -> Result<bool, OutOfMemory>
    ensures { IfOk result (λ fits.
        fits ≡ nat_le (printed_weight (map (λ p. p.now) paths.now)) 8388608) }
{
    let Some(room) = room_behind_paths(MOST_WEIGHT, paths) else {
        return Ok(false);
    };
    if MOST_WEIGHT / 2 <= room {
        return Ok(true);
    }
    let names = repeated_paths(alloc, paths)?;
    Ok(room_behind_names(room, &names).is_some())
}

/// What is left of a weight behind paths; none where they weigh more.
fn room_behind_paths(room: u64, paths: &[&[PathStep]]) -> Option<u64>
    ensures { result ≡ room_left room (paths_weight (map (λ p. p.now) paths.now)) }
{
    let mut room = room;
    for path in paths {
        let Some(left) = room_behind_path(room, path) else {
            return None;
        };
        room = left;
    }
    Some(room)
}

fn room_behind_names(room: u64, names: &PathNames<'_>) -> Option<u64>
    ensures { result ≡ room_left room (paths_weight names.now) }
{
    let mut room = room;
    for k in 0..names.len() {
        let Some(left) = room_behind_path(room, names.get(k)) else {
            return None;
        };
        room = left;
    }
    Some(room)
}
