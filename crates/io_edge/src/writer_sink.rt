ghost use Rattle.std.specs.Prelude.{◌≡◌, ◌≤◌, ℕ, OnOk, OnErr, take};
ghost use Rattle.std.specs.Io.KnownBytes.{Appends};
ghost use Rattle.io_edge.specs.Edge.{Rose};

use crate::fault::SinkFailed;
use crate::outlet::{Outlet, WriteFailed};
use crate::sink::Sink;
use std::marker::Model;

/// An outlet as a sink. It tells the bytes and the faults that its outlet tells.
#[derive(Drop)]
pub struct WriterSink<W: Outlet + Drop> {
    outlet: W,
    puts: u64,
}

impl<W: Outlet + Drop> Model for WriterSink<W> {
    ghost use Rattle.std.specs.Prelude.{None};
    ghost use Rattle.io_edge.specs.Sink.{SinkMeaning};

    ghost Value = { SinkMeaning };

    ghost view = { λ s. record {
      taken = W.taken s.outlet;
      pieces = None;
      faults = W.faults s.outlet;
      puts = s.puts;
    } };
}

impl<W: Outlet + Drop> WriterSink<W> {
    pub fn new(outlet: W) -> WriterSink<W>
        ensures taken { result.taken ≡ W.taken outlet }
        ensures faults { result.faults ≡ W.faults outlet }
        ensures puts { result.puts ≡ 0 }
    {
        WriterSink { outlet, puts: 0 }
    }
}

// Writes a piece whole.
fn write_whole<W: Outlet>(outlet: &mut W, piece: &[u8]) -> Result<(), WriteFailed>
    ensures whole { OnOk result (Appends (W.taken outlet.old) (W.taken outlet.new) piece.now) }
    ensures part { OnErr result
        ((n : ℕ) × Appends (W.taken outlet.old) (W.taken outlet.new) (take n piece.now)) }
    ensures faultless { OnOk result (W.faults outlet.new ≡ W.faults outlet.old) }
    ensures failed { OnErr result (Rose (W.faults outlet.old) (W.faults outlet.new)) }
    ensures counts { W.faults outlet.old ≤ W.faults outlet.new }
{
    let mut written = 0;
    while written < piece.len() {
        match outlet.write(&piece[written..]) {
            Ok(count) => written += count,
            Err(fault) => return Err(fault),
        }
    }
    Ok(())
}

impl<W: Outlet + Drop> Sink for WriterSink<W> {
    ghost means = { λ s. s };

    fn put(&mut self, piece: &[u8]) -> Result<(), SinkFailed> {
        self.puts = self.puts.saturating_add(1);
        match write_whole(&mut self.outlet, piece) {
            Ok(()) => Ok(()),
            Err(WriteFailed) => Err(SinkFailed),
        }
    }
}
