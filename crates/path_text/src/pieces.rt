ghost use Rattle.std.specs.Prelude.{◌≡◌, ◌++◌, [], ◌∷◌, IfOk, OnOk};
ghost use Rattle.rewrite_core.specs.ShiftedPath.{shifted_path};
ghost use Rattle.path_text.specs.Pieces.{steps_of_piece, steps_of_pieces, steps_of_path};

use rewrite_core::{PathStep, push_shifted};
use std::alloc::Global;
use std::marker::Model;
use std::mem;
use std::rc::Rc;
use trs_core::{OutOfMemory, Position};

/// A piece of a path: steps, or pieces that other paths share, at a position.
#[derive(Drop)]
pub enum Piece {
    Steps(Vec<PathStep>),
    Shared(Position, Rc<Vec<Piece>>),
}

/// A path of fewer steps and shared pieces than this is put in place of its use, and a longer one is
/// shared by the paths that use it. So a path is written out by way of less than one shared piece
/// for 15 steps, and within the weight of a text at most 1,057 of these are inside each other.
pub const FEWEST_SHARED: usize = 16;

/// A path that is kept for its uses: its steps, if they are few, or else pieces.
#[derive(Drop)]
pub enum KeptPath {
    Steps(Vec<PathStep>),
    Pieces(Vec<Piece>),
}

/// A path that is being read, in pieces, with further steps after them. Contracts see the list of
/// all steps.
#[derive(Drop)]
pub struct Pieces {
    pieces: Vec<Piece>,
    last: Vec<PathStep>,
}

impl Model for Pieces {
    ghost use Rattle.std.specs.Prelude.{List, ◌++◌};
    ghost use Rattle.std.specs.Coded.{coded_list};
    ghost use Rattle.trs_defs.specs.Path.{PlacedRule, placed_code};

    ghost Value = { List PlacedRule };

    ghost coded = { coded_list placed_code };

    ghost use Rattle.path_text.specs.Pieces.{steps_of_pieces};

    ghost view = { λ p. steps_of_pieces p.pieces.items ++ p.last.items };
}

impl Pieces {
    /// No steps yet, and room for so many.
    pub fn with_capacity(alloc: Global, room: usize) -> Result<Pieces, OutOfMemory>
        ensures { IfOk result (λ p. p ≡ []) }
    {
        let last = Vec::with_capacity(alloc, room)?;
        Ok(Pieces {
            pieces: Vec::new(alloc),
            last,
        })
    }

    pub fn push(&mut self, step: PathStep) -> Result<(), OutOfMemory>
        ensures { OnOk result (self.new ≡ self.old ++ step ∷ []) }
    {
        self.last.push(step)?;
        Ok(())
    }

    /// Appends a path at a position. What it shares is shared once more.
    pub fn append(
        &mut self,
        alloc: Global,
        path: &KeptPath,
        by: &Position,
    ) -> Result<(), OutOfMemory>
        ensures { OnOk result (self.new ≡ self.old ++ shifted_path by.now (steps_of_path path.now)) }
    {
        match path {
            KeptPath::Steps(steps) => push_shifted(alloc, &mut self.last, steps, by),
            KeptPath::Pieces(pieces) => self.append_pieces(alloc, pieces, by),
        }
    }

    fn append_pieces(
        &mut self,
        alloc: Global,
        pieces: &[Piece],
        by: &Position,
    ) -> Result<(), OutOfMemory>
        ensures { OnOk result (self.new
            ≡ self.old ++ shifted_path by.now (steps_of_pieces pieces.now)) }
    {
        for piece in pieces {
            self.append_piece(alloc, piece, by)?;
        }
        Ok(())
    }

    fn append_piece(
        &mut self,
        alloc: Global,
        piece: &Piece,
        by: &Position,
    ) -> Result<(), OutOfMemory>
        ensures { OnOk result (self.new
            ≡ self.old ++ shifted_path by.now (steps_of_piece piece.now)) }
    {
        match piece {
            Piece::Steps(steps) => push_shifted(alloc, &mut self.last, steps, by),
            Piece::Shared(place, shared) => {
                let place = shift_position(alloc, place, by)?;
                push_last(alloc, &mut self.pieces, &mut self.last)?;
                self.pieces.push(Piece::Shared(place, shared.clone()?))?;
                Ok(())
            }
        }
    }

    /// The whole path in pieces. Where these are many, they become one, which others share.
    pub fn finish(self, alloc: Global) -> Result<Vec<Piece>, OutOfMemory>
        ensures { IfOk result (λ pieces. steps_of_pieces pieces.items ≡ self) }
    {
        let is_long = self.size() >= FEWEST_SHARED;
        let Pieces {
            mut pieces,
            mut last,
        } = self;
        push_last(alloc, &mut pieces, &mut last)?;
        if is_long {
            return share(alloc, pieces);
        }
        Ok(pieces)
    }

    /// How many steps and shared pieces there are, those inside shared pieces not counted. It
    /// stands still at the last `usize`.
    fn size(&self) -> usize {
        let mut size = self.last.len();
        for piece in &self.pieces {
            size = size.saturating_add(match piece {
                Piece::Steps(steps) => steps.len(),
                Piece::Shared(_, _) => 1,
            });
        }
        size
    }
}

impl KeptPath {
    /// Appends the steps to others, with a position in front of each place.
    pub fn write_out(
        &self,
        alloc: Global,
        steps: &mut Vec<PathStep>,
        by: &Position,
    ) -> Result<(), OutOfMemory>
        ensures { OnOk result (steps.new.items
            ≡ steps.old.items ++ shifted_path by.now (steps_of_path self.now)) }
    {
        match self {
            KeptPath::Steps(more) => push_shifted(alloc, steps, more, by),
            KeptPath::Pieces(pieces) => push_steps(alloc, steps, pieces, by),
        }
    }
}

/// One piece of several.
fn share(alloc: Global, pieces: Vec<Piece>) -> Result<Vec<Piece>, OutOfMemory>
    ensures { IfOk result (λ whole. steps_of_pieces whole.items ≡ steps_of_pieces pieces.items) }
{
    let mut whole = Vec::with_capacity(alloc, 1)?;
    whole.push(Piece::Shared(Position::new(alloc), Rc::new(alloc, pieces)?))?;
    Ok(whole)
}

/// Appends the steps of pieces, with a position in front of each place.
fn push_steps(
    alloc: Global,
    steps: &mut Vec<PathStep>,
    pieces: &[Piece],
    by: &Position,
) -> Result<(), OutOfMemory>
    ensures { OnOk result (steps.new.items
        ≡ steps.old.items ++ shifted_path by.now (steps_of_pieces pieces.now)) }
{
    for piece in pieces {
        match piece {
            Piece::Steps(more) => push_shifted(alloc, steps, more, by)?,
            Piece::Shared(place, shared) => {
                let place = shift_position(alloc, place, by)?;
                push_steps(alloc, steps, shared, &place)?;
            }
        }
    }
    Ok(())
}

/// Makes one more piece of the steps after pieces, if there are any.
fn push_last(
    alloc: Global,
    pieces: &mut Vec<Piece>,
    last: &mut Vec<PathStep>,
) -> Result<(), OutOfMemory>
    ensures moved { OnOk result (steps_of_pieces pieces.new.items
        ≡ steps_of_pieces pieces.old.items ++ last.old.items) }
    ensures empty { OnOk result (last.new.items ≡ []) }
{
    if last.is_empty() {
        return Ok(());
    }
    let steps = mem::replace(last, Vec::new(alloc));
    pieces.push(Piece::Steps(steps))?;
    Ok(())
}

/// A position with another one in front of it.
fn shift_position(
    alloc: Global,
    position: &Position,
    by: &Position,
) -> Result<Position, OutOfMemory>
    ensures { IfOk result (λ p. p ≡ by.now ++ position.now) }
{
    let mut whole = by.copy(alloc)?;
    for place in position.places() {
        whole.push(*place)?;
    }
    Ok(whole)
}
