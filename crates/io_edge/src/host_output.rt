//! The output of a host. This is all that no clause speaks of: that what is written goes out.
ghost use Rattle.std.specs.Prelude.{None};

use crate::outlet::{Outlet, WriteFailed};
use std::io;
use std::io::{Print, Printer, Write};

/// The output of a host, which tells nothing of the bytes that went there.
#[derive(Drop)]
pub struct HostOutput<'a, R: Print> {
    printer: Printer<'a, R>,
    faults: u64,
}

impl<'a, R: Print> HostOutput<'a, R> {
    pub fn new(rt: &'a R) -> HostOutput<'a, R> {
        HostOutput {
            printer: io::writer(rt),
            faults: 0,
        }
    }
}

impl<'a, R: Print> Outlet for HostOutput<'a, R> {
    ghost taken = { λ _. None };

    ghost faults = { λ s. s.faults };

    /// A host that takes no byte of a piece has failed.
    fn write(&mut self, piece: &[u8]) -> Result<usize, WriteFailed> {
        match self.printer.write(piece) {
            Ok(count) if count > 0 || piece.is_empty() => Ok(count),
            _ => {
                self.faults = self.faults.saturating_add(1);
                Err(WriteFailed)
            }
        }
    }
}
