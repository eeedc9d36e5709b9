//! Shelves and sinks, in memory and at the host.
use crate::broken::{Broken, Reads};
use io_edge::{
    FetchFault, FileShelf, HostFiles, HostOutput, MemoryShelf, MemorySink, Shelf, Sink, WriterSink,
};
use std::alloc::{AllocError, Global};
use std::fs;
use std::test::*;

fn answers<S: Shelf>(
    shelf: &mut S,
    name: &str,
    limit: u64,
    wanted: Result<&[u8], FetchFault>,
) -> bool {
    match shelf.fetch(name, limit) {
        Ok(bytes) => wanted == Ok(bytes.as_slice()),
        Err(fault) => wanted == Err(fault),
    }
}

// Names, limits, and what is fetched.
const ANSWERS: [(&str, u64, Result<&[u8], FetchFault>); 5] = [
    ("seven", 7, Ok(b"7 bytes")),
    ("seven", 6, Err(FetchFault::TooLong)),
    ("/dev/null", 6, Ok(b"")),
    ("missing", 6, Err(FetchFault::Failed)),
    (".", 6, Err(FetchFault::Failed)),
];

// The files of the host stand under the names that they are asked for by.
#[test]
fn files(rt: HostRuntime) -> Result<(), Fail> {
    fs::write(&rt, "seven", b"7 bytes")?;
    let mut shelf = FileShelf::new(HostFiles::new(&rt), rt.alloc());
    for (name, limit, wanted) in &ANSWERS {
        assert!(rt; answers(&mut shelf, name, *limit, *wanted), "{name}");
    }
    Ok(())
}

// A shelf in memory with one text.
fn shelf_of_seven(alloc: Global) -> Result<MemoryShelf, AllocError> {
    let name = String::from_str(alloc, "seven")?;
    let text = Vec::from_slice(alloc, b"7 bytes")?;
    let texts = vec![in alloc; (name, text)]?;
    Ok(MemoryShelf::new(alloc, texts, Vec::new(alloc)))
}

#[test]
fn memory(rt: HostRuntime) -> Result<(), Fail> {
    let mut shelf = shelf_of_seven(rt.alloc())?;
    assert!(rt; answers(&mut shelf, "seven", 7, Ok(b"7 bytes")));
    Ok(())
}

#[test]
fn memory_is_put_into(rt: HostRuntime) -> Result<(), Fail> {
    let mut sink = MemorySink::new(rt.alloc(), 4, Vec::new(rt.alloc()))?;
    assert!(rt; sink.put(b"abcd").is_ok());
    assert!(rt; sink.taken() == b"abcd".as_slice());
    Ok(())
}

// How files are read, limits, and what is fetched.
const READERS: [(Reads, u64, Result<&[u8], FetchFault>); 7] = [
    (Reads::Whole, 7, Ok(b"7 bytes")),
    (Reads::Whole, 6, Err(FetchFault::TooLong)),
    (Reads::Short, 7, Ok(b"7 bytes")),
    (Reads::Short, 6, Err(FetchFault::TooLong)),
    (Reads::FailsBehind(3), 7, Err(FetchFault::Failed)),
    (Reads::FailsBehind(0), 7, Err(FetchFault::Failed)),
    (Reads::FailsBehind(3), 2, Err(FetchFault::TooLong)),
];

// A file that is read in short pieces is read whole; one whose reader fails is no text, however much
// of it was read before.
#[test]
fn readers(rt: HostRuntime) -> Result<(), Fail> {
    for (reads, limit, wanted) in &READERS {
        let mut shelf = FileShelf::new(Broken { reads: *reads }, rt.alloc());
        assert!(rt; answers(&mut shelf, "any", *limit, *wanted));
    }
    Ok(())
}

// What is put into the host's output goes there.
#[test]
fn output(rt: HostRuntime) -> Result<(), Fail> {
    let mut sink = WriterSink::new(HostOutput::new(&rt));
    assert!(rt; sink.put(b"a line\n").is_ok());
    assert!(rt; sink.put(b"").is_ok());
    Ok(())
}
