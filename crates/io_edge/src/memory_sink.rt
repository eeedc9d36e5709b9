ghost use Rattle.std.specs.Prelude.{◌≡◌, ◌≤◌, ◌++◌, ◌-◌, ℕ, List, [], length, true, false, IfOk, OnOk, OnErr};
ghost use Rattle.io_edge.specs.Edge.{Rose, next_count};
ghost use Rattle.io_edge.specs.Sink.{AppendsTo, AppendsPrefix, pieces_in, TakesPieces, IsOnePut, NoSinkCountFell};
ghost use Rattle.io_edge.specs.SinkState.{refuses, sink_meaning};

use crate::fault::{OutOfMemory, SinkFailed};
use crate::sink::Sink;
use std::alloc::Global;
use std::marker::Model;

/// Bytes in memory, with room for so many. The calls of `put` are counted from 0, and those whose
/// numbers it was given fail.
#[derive(Drop)]
pub struct MemorySink {
    room: usize,
    failing: Vec<u64>,
    calls: u64,
    bytes: Vec<u8>,
    // How long each piece is that it has taken and that has bytes.
    sizes: Vec<usize>,
    faults: u64,
}

impl Model for MemorySink {
    ghost use Rattle.std.specs.Prelude.{◌≡◌, ◌≤◌, sum, vec_len, vec_capacity};
    ghost use Rattle.io_edge.specs.SinkState.{SinkState, cut_by};

    ghost Value = { SinkState };

    ghost view = { λ s. record {
      room = s.room;
      failing = s.failing.items;
      calls = s.calls;
      bytes = s.bytes.items;
      pieces = cut_by s.sizes.items s.bytes.items;
      faults = s.faults;
    } };

    // What there is room for was taken from memory, and the pieces are all of the bytes.
    ghost invariant = { λ s. (vec_len s.bytes ≤ s.room)
        × (s.room ≤ vec_capacity s.bytes)
        × (vec_len s.sizes ≤ vec_len s.bytes)
        × (s.room ≤ vec_capacity s.sizes)
        × (sum s.sizes.items ≡ vec_len s.bytes) };
}

impl MemorySink {
    /// An empty sink, which takes the memory for `room` bytes and for where their pieces end at once.
    pub fn new(alloc: Global, room: u64, failing: Vec<u64>) -> Result<MemorySink, OutOfMemory>
        ensures room { IfOk result (λ s. s.room ≡ room) }
        ensures failing { IfOk result (λ s. s.failing ≡ failing.items) }
        ensures calls { IfOk result (λ s. s.calls ≡ 0) }
        ensures bytes { IfOk result (λ s. s.bytes ≡ []) }
        ensures pieces { IfOk result (λ s. s.pieces ≡ []) }
        ensures faults { IfOk result (λ s. s.faults ≡ 0) }
    {
        let room = room as usize;
        let bytes = Vec::with_capacity(alloc, room)?;
        let sizes = Vec::with_capacity(alloc, room)?;
        Ok(MemorySink {
            room,
            failing,
            calls: 0,
            bytes,
            sizes,
            faults: 0,
        })
    }

    // Takes a piece for which there is room.
    #[tactic(auto, using(crate::proofs::Cutting::cut_piece, crate::proofs::Cutting::cut_nothing))]
    fn take(&mut self, piece: &[u8])
        requires { length piece.now ≤ self.old.room - length self.old.bytes }
        ensures { self.new ≡ record self.old {
          bytes = self.old.bytes ++ piece.now;
          pieces = self.old.pieces ++ pieces_in piece.now;
        } }
    {
        let Ok(()) = self.bytes.extend_from_slice(piece) else {
            unreachable!()
        };
        if piece.is_empty() {
            return;
        }
        let Ok(()) = self.sizes.push(piece.len()) else {
            unreachable!()
        };
    }

    /// The bytes that it has taken.
    pub fn taken(&self) -> &[u8]
        ensures { result.now ≡ self.now.bytes }
    {
        &self.bytes
    }
}

impl Sink for MemorySink {
    ghost means = { sink_meaning };

    /// Each call is counted, whatever its answer. No memory is taken.
    fn put(&mut self, piece: &[u8]) -> Result<(), SinkFailed>
        ensures whole { OnOk result
            (AppendsTo (sink_meaning self.old) piece.now (sink_meaning self.new)) }
        ensures part { OnErr result
            (AppendsPrefix (sink_meaning self.old) piece.now (sink_meaning self.new)) }
        ensures piece { OnOk result
            (TakesPieces (sink_meaning self.old) (pieces_in piece.now) (sink_meaning self.new)) }
        ensures none { OnErr result
            (TakesPieces (sink_meaning self.old) [] (sink_meaning self.new)) }
        ensures faultless { OnOk result (self.new.faults ≡ self.old.faults) }
        ensures failed { OnErr result (Rose self.old.faults self.new.faults) }
        ensures put { IsOnePut (sink_meaning self.old) (sink_meaning self.new) }
        ensures counts { NoSinkCountFell (sink_meaning self.old) (sink_meaning self.new) }

        // Which calls fail, and how the sink stands then.
        ensures accepted { OnOk result (refuses self.old piece.now ≡ false) }
        ensures refused { OnErr result (refuses self.old piece.now ≡ true) }
        ensures appended { OnOk result (self.new ≡ record self.old {
          calls = next_count self.old.calls;
          bytes = self.old.bytes ++ piece.now;
          pieces = self.old.pieces ++ pieces_in piece.now;
        }) }
        ensures unappended { OnErr result (self.new ≡ record self.old {
          calls = next_count self.old.calls;
          faults = next_count self.old.faults;
        }) }
    {
        let call = self.calls;
        self.calls = call.saturating_add(1);
        if self.failing.contains(&call) || piece.len() > self.room - self.bytes.len() {
            self.faults = self.faults.saturating_add(1);
            return Err(SinkFailed);
        }
        self.take(piece);
        Ok(())
    }
}
