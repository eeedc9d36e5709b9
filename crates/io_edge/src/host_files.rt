//! The files of a host. This is all that is said of them by no clause: that a file is opened by its
//! name, and that what the host reads is what is in it.
ghost use Rattle.io_edge.specs.Telling.{untold};

use crate::source::{Opener, ReadFailed, Source};
use std::fs;
use std::io::Read;
use std::rt::Files;

/// The files of a host, by their paths. It tells nothing of their contents.
#[derive(Drop)]
pub struct HostFiles<'a, R: Files> {
    rt: &'a R,
}

impl<'a, R: Files> HostFiles<'a, R> {
    pub fn new(rt: &'a R) -> HostFiles<'a, R> {
        HostFiles { rt }
    }
}

/// A file of a host.
#[derive(Drop)]
pub struct HostFile<F: Read + Drop> {
    file: F,
}

impl<F: Read + Drop> Source for HostFile<F> {
    ghost left = { λ _. untold };

    fn read(&mut self, buffer: &mut [u8]) -> Result<usize, ReadFailed> {
        match self.file.read(buffer) {
            Ok(count) => Ok(count),
            Err(_) => Err(ReadFailed),
        }
    }
}

impl<'a, R: Files> Opener for HostFiles<'a, R> {
    type File = HostFile<R::File>;

    ghost tells = { λ _ _. untold };

    fn open(&self, name: &str) -> Result<HostFile<R::File>, ReadFailed> {
        match fs::open(self.rt, name) {
            Ok(file) => Ok(HostFile { file }),
            Err(_) => Err(ReadFailed),
        }
    }
}
