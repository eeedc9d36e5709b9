ghost use Rattle.std.specs.Prelude.{◌≡◌, ◌+◌, ◌++◌, ℕ, List, length, map, min, IfOk, OnOk};
ghost use Rattle.sexp_core.specs.Items.{view, views};
ghost use Rattle.trs_defs.specs.Path.{PlacedRule};
ghost use Rattle.rewrite_core.specs.ShiftedPath.{shifted_path};
ghost use Rattle.text_reading.specs.Reading.{many, word, place_of};
ghost use Rattle.text_reading.specs.Seen.{seen};
ghost use Rattle.path_text.specs.Sharing.{path_weight, longest_place};
ghost use Rattle.path_text.specs.Paths.{use_list, use_part, path_part, path_of_parts, all_steps, within_room, ◌then_read◌, begins_with as is_begun_with, is_word as is_the_word};
ghost use Rattle.path_text.specs.Parts.{steps_of_part, room_left};
ghost use Rattle.path_text.specs.Pieces.{steps_of_path, steps_of_pieces};

use crate::pieces::{FEWEST_SHARED, KeptPath, Piece, Pieces};
use crate::reading::{read_placed_rule, read_position};
use crate::sharing::{DefinedPath, Definitions};
use rewrite_core::PathStep;
use sexp_core::Sexp;
use std::alloc::Global;
use text_reading::{Read, both, keyword, place, push, refuse_more};
use trs_core::{OutOfMemory, Position};

/// A part of a path in a text of version 2.
#[derive(Drop)]
pub enum PathPart<'d> {
    Step(PathStep),
    /// The path of a word, at a position.
    Use(Position, &'d DefinedPath),
}

/// The parts of `(path part ..)`.
fn read_parts_of_path<'d>(
    alloc: Global,
    definitions: &'d Definitions,
    item: &Sexp,
) -> Result<Read<Vec<PathPart<'d>>>, OutOfMemory>
    ensures { IfOk result (λ r. seen (λ v. all_steps (map steps_of_part v.items)) r
        ≡ path_of_parts definitions.now (view item.now)) }
{
    let Sexp::List(at, members) = item else {
        return Ok(Err(place(item)));
    };
    let Some((head, parts)) = members.split_first() else {
        return Ok(Err(*at));
    };
    let head = keyword(b"path", head);
    let parts = read_parts(alloc, definitions, parts)?;
    match both(head, parts) {
        Ok(((), parts)) => Ok(Ok(parts)),
        Err(at) => Ok(Err(at)),
    }
}

/// The parts of a path that is within a weight, and what it leaves of that.
pub fn read_parts_within<'d>(
    alloc: Global,
    definitions: &'d Definitions,
    room: u64,
    item: &Sexp,
) -> Result<Read<(Vec<PathPart<'d>>, u64)>, OutOfMemory>
    ensures parts { IfOk result (λ r. seen (λ p. all_steps (map steps_of_part p.0.items)) r
        ≡ path_of_parts definitions.now (view item.now)
        then_read within_room room (place_of (view item.now))) }
    ensures left { IfOk result (λ r. IfOk r (λ p.
        p.1 + path_weight (all_steps (map steps_of_part p.0.items)) ≡ room)) }
{
    let parts = match read_parts_of_path(alloc, definitions, item)? {
        Ok(parts) => parts,
        Err(at) => return Ok(Err(at)),
    };
    match room_behind(room, &parts) {
        Some(left) => Ok(Ok((parts, left))),
        None => Ok(Err(place(item))),
    }
}

fn read_parts<'d>(
    alloc: Global,
    definitions: &'d Definitions,
    items: &[Sexp],
) -> Result<Read<Vec<PathPart<'d>>>, OutOfMemory>
    ensures { IfOk result (λ r. seen (λ v. map steps_of_part v.items) r
        ≡ many (path_part definitions.now) (views items.now)) }
{
    let mut parts = Ok(Vec::with_capacity(alloc, items.len())?);
    for item in items {
        push(&mut parts, read_part(alloc, definitions, item)?)?;
    }
    Ok(parts)
}

/// A part of a path: `(use position word)` where it begins so, else `(at position number)`.
fn read_part<'d>(
    alloc: Global,
    definitions: &'d Definitions,
    item: &Sexp,
) -> Result<Read<PathPart<'d>>, OutOfMemory>
    ensures { IfOk result (λ r.
        seen steps_of_part r ≡ path_part definitions.now (view item.now)) }
{
    if begins_with(b"use", item) {
        return read_use(alloc, definitions, item);
    }
    match read_placed_rule(alloc, item)? {
        Ok(step) => Ok(Ok(PathPart::Step(step))),
        Err(at) => Ok(Err(at)),
    }
}

/// `(use position word)`.
fn read_use<'d>(
    alloc: Global,
    definitions: &'d Definitions,
    item: &Sexp,
) -> Result<Read<PathPart<'d>>, OutOfMemory>
    ensures { IfOk result (λ r. seen steps_of_part r ≡ use_part definitions.now (view item.now)) }
{
    match read_use_list(alloc, definitions, item)? {
        Ok((position, path)) => {
            if path.is_too_deep_at(&position) {
                Ok(Err(place(item)))
            } else {
                Ok(Ok(PathPart::Use(position, path)))
            }
        }
        Err(at) => Ok(Err(at)),
    }
}

/// The position and the path of `(use position word)`.
fn read_use_list<'d>(
    alloc: Global,
    definitions: &'d Definitions,
    item: &Sexp,
) -> Result<Read<(Position, &'d DefinedPath)>, OutOfMemory>
    ensures { IfOk result (λ r.
        seen {A = List ℕ × List PlacedRule} (λ p. (p.0, p.1.now)) r
        ≡ use_list definitions.now (view item.now)) }
{
    let Sexp::List(at, members) = item else {
        return Ok(Err(place(item)));
    };
    let [head, position, word, more @ ..] = *members else {
        return Ok(Err(*at));
    };
    let head = keyword(b"use", head);
    let position = read_position(alloc, position)?;
    let path = read_defined_word(definitions, word);
    Ok(without_head(refuse_more(both(both(head, position), path), more)))
}

fn without_head<'d>(
    parts: Read<(((), Position), &'d DefinedPath)>,
) -> Read<(Position, &'d DefinedPath)>
    ensures { seen {A = List ℕ × List PlacedRule} (λ p. (p.0, p.1.now)) result
        ≡ seen (λ p. (p.0.1, p.1.now)) parts.entry }
{
    match parts {
        Ok((((), position), path)) => Ok((position, path)),
        Err(at) => Err(at),
    }
}

/// The path of a word that is defined.
fn read_defined_word<'d>(definitions: &'d Definitions, item: &Sexp) -> Read<&'d DefinedPath>
    ensures { seen (λ p. p.now) result ≡ word definitions.now (view item.now) }
{
    let Sexp::Word(at, word) = item else {
        return Err(place(item));
    };
    match definitions.find(word) {
        Some(path) => Ok(path),
        None => Err(*at),
    }
}

/// Whether an item is a list that begins with a word.
pub fn begins_with(word: &[u8], item: &Sexp) -> bool
    ensures { result ≡ is_begun_with word.now (view item.now) }
{
    match item {
        Sexp::Word(_, _) => false,
        Sexp::List(_, members) => match members.split_first() {
            None => false,
            Some((head, _)) => is_word(word, head),
        },
    }
}

fn is_word(word: &[u8], item: &Sexp) -> bool
    ensures { result ≡ is_the_word word.now (view item.now) }
{
    match item {
        Sexp::Word(_, found) => found.as_slice() == word,
        Sexp::List(_, _) => false,
    }
}

// ---- the steps of parts

/// What is left of a weight behind the steps of parts; none where they weigh more.
fn room_behind(room: u64, parts: &[PathPart<'_>]) -> Option<u64>
    ensures { result ≡ room_left room (path_weight (all_steps (map steps_of_part parts.now))) }
{
    let mut room = room;
    for part in parts {
        let Some(left) = room_behind_part(room, part) else {
            return None;
        };
        room = left;
    }
    Some(room)
}

fn room_behind_part(room: u64, part: &PathPart<'_>) -> Option<u64>
    ensures { result ≡ room_left room (path_weight (steps_of_part part.now)) }
{
    match part {
        PathPart::Step(step) => room_behind_step(room, step),
        PathPart::Use(by, path) => path.room_behind(room, by.places().len()),
    }
}

/// What is left of a weight behind a path; none where it weighs more.
pub fn room_behind_path(room: u64, path: &[PathStep]) -> Option<u64>
    ensures { result ≡ room_left room (path_weight path.now) }
{
    let mut room = room;
    for step in path {
        let Some(left) = room_behind_step(room, step) else {
            return None;
        };
        room = left;
    }
    Some(room)
}

fn room_behind_step(room: u64, step: &PathStep) -> Option<u64>
    ensures { result ≡ room_left room (1 + length step.now.place) }
{
    let room = room.checked_sub(1)?;
    room.checked_sub(step.place.places().len() as u64)
}

/// The path of parts that weigh so much together, to be kept.
pub fn defined_path(
    alloc: Global,
    parts: &[PathPart<'_>],
    weight: u64,
) -> Result<DefinedPath, OutOfMemory>
    requires { weight ≡ path_weight (all_steps (map steps_of_part parts.now)) }
    ensures { IfOk result (λ path. path ≡ all_steps (map steps_of_part parts.now)) }
{
    let count = count_of_parts(parts);
    let path = kept_path(alloc, parts, count)?;
    let longest = longest_of_parts(parts);
    Ok(DefinedPath::new(path, count, longest, weight))
}

/// The path of parts, to be kept: steps if there are as few as it is said, or else pieces.
fn kept_path(alloc: Global, parts: &[PathPart<'_>], count: usize) -> Result<KeptPath, OutOfMemory>
    ensures { IfOk result (λ path. steps_of_path path ≡ all_steps (map steps_of_part parts.now)) }
{
    if count < FEWEST_SHARED {
        return Ok(KeptPath::Steps(steps_of_parts(alloc, parts)?));
    }
    Ok(KeptPath::Pieces(pieces_of_parts(alloc, parts)?))
}

/// The steps of parts in pieces, in order.
fn pieces_of_parts(alloc: Global, parts: &[PathPart<'_>]) -> Result<Vec<Piece>, OutOfMemory>
    ensures { IfOk result (λ pieces.
        steps_of_pieces pieces.items ≡ all_steps (map steps_of_part parts.now)) }
{
    let mut pieces = Pieces::with_capacity(alloc, parts.len())?;
    for part in parts {
        append_part(alloc, &mut pieces, part)?;
    }
    pieces.finish(alloc)
}

fn append_part(alloc: Global, pieces: &mut Pieces, part: &PathPart<'_>) -> Result<(), OutOfMemory>
    ensures { OnOk result (pieces.new ≡ pieces.old ++ steps_of_part part.now) }
{
    match part {
        PathPart::Step(step) => pieces.push(step.copy(alloc)?),
        PathPart::Use(by, path) => pieces.append(alloc, path.path(), by),
    }
}

/// The number of steps of parts. It stands still at the last `usize`.
fn count_of_parts(parts: &[PathPart<'_>]) -> usize
    ensures { result ≡ min (length (all_steps (map steps_of_part parts.now))) usize.MAX }
{
    let mut count: usize = 0;
    for part in parts {
        count = count.saturating_add(count_of_part(part));
    }
    count
}

fn count_of_part(part: &PathPart<'_>) -> usize
    ensures { result ≡ length (steps_of_part part.now) }
{
    match part {
        PathPart::Step(_) => 1,
        PathPart::Use(_, path) => path.count(),
    }
}

/// The numbers of the longest place of parts. It stands still at the last `usize`.
fn longest_of_parts(parts: &[PathPart<'_>]) -> usize
    ensures { result ≡ min (longest_place (all_steps (map steps_of_part parts.now))) usize.MAX }
{
    let mut longest = 0;
    for part in parts {
        longest = longest.max(longest_of_part(part));
    }
    longest
}

fn longest_of_part(part: &PathPart<'_>) -> usize
    ensures { result ≡ min (longest_place (steps_of_part part.now)) usize.MAX }
{
    match part {
        PathPart::Step(step) => step.place.places().len(),
        PathPart::Use(by, path) => path.longest_at(by),
    }
}

/// The steps of parts, in order.
pub fn steps_of_parts(alloc: Global, parts: &[PathPart<'_>]) -> Result<Vec<PathStep>, OutOfMemory>
    ensures { IfOk result (λ steps. steps.items ≡ all_steps (map steps_of_part parts.now)) }
{
    let mut steps = Vec::with_capacity(alloc, parts.len())?;
    for part in parts {
        push_part(alloc, &mut steps, part)?;
    }
    Ok(steps)
}

fn push_part(
    alloc: Global,
    steps: &mut Vec<PathStep>,
    part: &PathPart<'_>,
) -> Result<(), OutOfMemory>
    ensures { OnOk result (steps.new.items ≡ steps.old.items ++ steps_of_part part.now) }
{
    match part {
        PathPart::Step(step) => {
            steps.push(step.copy(alloc)?)?;
            Ok(())
        }
        PathPart::Use(by, path) => path.write_out(alloc, steps, by),
    }
}
