ghost use Rattle.std.specs.Prelude.{◌≡◌, ◌≢◌, ◌+◌, ◌<◌, ◌≤◌, ◌++◌, ℕ, List, [], false, length, IsTrue, IfOk, IfErr, IsErrOf, IsNone};
ghost use Rattle.io_edge.specs.Edge.{count_after, RoseBy};
ghost use Rattle.io_edge.specs.Telling.{CanBe, CanPass, CanGive, Gives, IsAtEnd, IsAtFault, CanFailBehind, BreaksOff};
ghost use Rattle.io_edge.specs.Shelf.{CountsRise, CountsFault};
ghost use Rattle.io_edge.specs.Named.{first_under, faults_under, bytes_under, shelf_with};
ghost use Rattle.io_edge.specs.Chunks.{IsChunkMore, AreChunks, CountsChunks};
ghost use Rattle.io_edge.specs.declared.fault.FetchFault.TheVariants.{TooLong, Failed, OutOfMemory};

use crate::counts::{Reading, Tallies};
use crate::fault::FetchFault;
use crate::shelf::Shelf;
use crate::source::{Opener, Source};
use std::alloc::Global;

/// Files as a shelf. It tells what they tell.
#[derive(Drop)]
pub struct FileShelf<O: Opener + Drop> {
    files: O,
    alloc: Global,
    tallies: Tallies,
}

impl<O: Opener + Drop> FileShelf<O> {
    pub fn new(files: O, alloc: Global) -> FileShelf<O>
        ensures files { result.files ≡ files }
        ensures tallies { result.tallies ≡ [] }
    {
        FileShelf {
            files,
            alloc,
            tallies: Tallies::new(alloc),
        }
    }
}

const CHUNK: usize = 4096;

// Reads until a chunk is full, one byte past the limit is read, or the end comes, and answers
// whether it came. Room is made before, so that no byte that was read is lost.
fn read_chunk<F: Source>(file: &mut F, text: &mut Vec<u8>, limit: u64) -> Result<bool, FetchFault>
    requires { length text.old.items ≤ limit }
    ensures bound { length text.new.items ≤ limit + 1 }
    ensures read { (bs : List ℕ) × (text.new.items ≡ text.old.items ++ bs) ×
        Gives (F.left file.old) bs (F.left file.new) }
    ensures chunk { IfOk result (λ ended. ended ≡ false →
        IsChunkMore limit (length text.old.items) (length text.new.items)) }
    ensures end { IfOk result (λ ended. IsTrue ended → IsAtEnd (F.left file.new)) }
    ensures short { IfOk result (λ ended. IsTrue ended → length text.new.items ≤ limit) }
    ensures memory { IsErrOf result OutOfMemory → text.new.items ≡ text.old.items }
    ensures fault { IsErrOf result Failed → IsAtFault (F.left file.new) }
    ensures before { IsErrOf result Failed → length text.new.items ≤ limit }
    ensures reason { IfErr result (λ e. e ≢ TooLong) }
{
    let left = limit - text.len() as u64;
    let wanted = if left < CHUNK as u64 {
        left as usize + 1
    } else {
        CHUNK
    };
    text.reserve(wanted)?;
    let full = text.len() + wanted;
    while text.len() < full {
        let mut chunk = [0; CHUNK];
        let Ok(count) = file.read(&mut chunk[..full - text.len()]) else {
            return Err(FetchFault::Failed);
        };
        if count == 0 {
            return Ok(true);
        }
        let Ok(()) = text.extend_from_slice(&chunk[..count]) else {
            unreachable!()
        };
    }
    Ok(false)
}

// Reads to the end, or one byte past the limit. Memory is asked for before each chunk.
fn read_to_limit<F: Source>(alloc: Global, file: &mut F, limit: u64) -> Reading
    ensures whole { IfOk result.outcome (λ v. CanBe (F.left file.old) v.items) }
    ensures bound { IfOk result.outcome (λ v. length v.items ≤ limit) }
    ensures size { IfOk result.outcome (λ v. result.bytes ≡ length v.items) }
    ensures too_long { IsErrOf result.outcome TooLong → CanPass limit (F.left file.old) }
    ensures long { IsErrOf result.outcome TooLong → result.bytes ≡ limit + 1 }
    ensures fault { IsErrOf result.outcome Failed →
        CanFailBehind result.bytes (F.left file.old) }
    ensures before { IsErrOf result.outcome Failed → result.bytes ≤ limit }
    ensures chunks { IsErrOf result.outcome OutOfMemory → AreChunks limit result.bytes }
    ensures there { IsErrOf result.outcome OutOfMemory → CanGive result.bytes (F.left file.old) }
{
    let mut text: Vec<u8> = Vec::new(alloc);
    while text.len() as u64 <= limit {
        match read_chunk(file, &mut text, limit) {
            Ok(true) => {
                let bytes = text.len() as u64;
                return Reading {
                    outcome: Ok(text),
                    bytes,
                };
            }
            Ok(false) => {}
            Err(fault) => return Reading {
                outcome: Err(fault),
                bytes: text.len() as u64,
            },
        }
    }
    Reading {
        outcome: Err(FetchFault::TooLong),
        bytes: text.len() as u64,
    }
}

// Opens the file of a name and reads it so.
fn read_file<O: Opener>(files: &O, alloc: Global, name: &str, limit: u64) -> Reading
    ensures whole { IfOk result.outcome (λ v. CanBe (O.tells files.now name.now) v.items) }
    ensures bound { IfOk result.outcome (λ v. length v.items ≤ limit) }
    ensures size { IfOk result.outcome (λ v. result.bytes ≡ length v.items) }
    ensures too_long { IsErrOf result.outcome TooLong →
        CanPass limit (O.tells files.now name.now) }
    ensures long { IsErrOf result.outcome TooLong → result.bytes ≡ limit + 1 }
    ensures fault { IsErrOf result.outcome Failed →
        CanFailBehind result.bytes (O.tells files.now name.now) }
    ensures before { IsErrOf result.outcome Failed → result.bytes ≤ limit }
    ensures chunks { IsErrOf result.outcome OutOfMemory → AreChunks limit result.bytes }
    ensures there { IsErrOf result.outcome OutOfMemory →
        CanGive result.bytes (O.tells files.now name.now) }
{
    let Ok(mut file) = files.open(name) else {
        return Reading::failed();
    };
    read_to_limit(alloc, &mut file, limit)
}

impl<O: Opener + Drop> Shelf for FileShelf<O> {
    ghost means = { λ s. shelf_with (O.tells s.files) s.tallies };

    fn fetch(&mut self, name: &str, limit: u64) -> Result<Vec<u8>, FetchFault>
        ensures whole { IfOk result (λ v. CanBe (O.tells self.old.files name.now) v.items) }
        ensures bound { IfOk result (λ v. length v.items ≤ limit) }
        ensures too_long { IsErrOf result TooLong →
            CanPass limit (O.tells self.old.files name.now) }
        ensures told { (q : List ℕ) → O.tells self.new.files q ≡ O.tells self.old.files q }
        ensures faults { CountsRise (faults_under self.old.tallies)
            (faults_under self.new.tallies) name.now }
        ensures read { CountsRise (bytes_under self.old.tallies)
            (bytes_under self.new.tallies) name.now }
        ensures counted { CountsFault result (faults_under self.old.tallies)
            (faults_under self.new.tallies) name.now }
        ensures long { IsErrOf result TooLong → RoseBy (limit + 1)
            (bytes_under self.old.tallies name.now) (bytes_under self.new.tallies name.now) }

        // It fails only where the file may, and the bytes before the fault are counted. So are those
        // of a text that is answered, and of one that is too long all up to one past the limit.
        ensures fault { IsErrOf result Failed → BreaksOff limit (O.tells self.old.files name.now)
            (bytes_under self.old.tallies name.now) (bytes_under self.new.tallies name.now) }
        ensures whole_read { IfOk result (λ v. bytes_under self.new.tallies name.now ≡
            count_after (length v.items) (bytes_under self.old.tallies name.now)) }
        ensures long_read { IsErrOf result TooLong → bytes_under self.new.tallies name.now ≡
            count_after (limit + 1) (bytes_under self.old.tallies name.now) }

        // Memory is asked for the name and before each chunk. Where it is wanting, whole chunks
        // that are there were read. Without memory for a new name no count changes.
        ensures chunks { IsErrOf result OutOfMemory →
            CountsChunks limit (O.tells self.old.files name.now)
            (bytes_under self.old.tallies name.now) (bytes_under self.new.tallies name.now) }
        ensures unnoted { IsNone (first_under self.new.tallies name.now) → self.new ≡ self.old }
    {
        self.tallies.note(self.alloc, name)?;
        let reading = read_file(&self.files, self.alloc, name, limit);
        self.tallies.record(name, reading)
    }
}
