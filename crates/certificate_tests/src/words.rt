//! The words of the command line.
use command_line::{Refused, parse};
use std::alloc::Global;
use std::test::*;

const LINES: [(&str, bool); 34] = [
    ("certify p c", true),
    ("upgrade p c", true),
    ("certify --workers=16 p c --budget 1000000", true),
    ("certify p -- -c", true),
    ("certify - ", true),
    ("termination p", true),
    ("confluence p --budget 5", true),
    ("unique p --workers 2", true),
    ("termination p c", false),
    ("unique p --budget 01", false),
    ("sample 40", true),
    ("sample 512 --workers 2", true),
    ("sample 0", false),
    ("sample 513", false),
    ("sample 007", false),
    ("sample x", false),
    ("sample 4 y", false),
    ("sample", false),
    ("prove p", false),
    ("certify p", false),
    ("upgrade p", false),
    ("certify p c d", false),
    ("certify p c --workers 0", false),
    ("certify p c --workers 17", false),
    ("certify p c --workers 01", false),
    ("certify p c --workers=", false),
    ("certify p c --budget 1000001", false),
    ("certify p c --budget 2 --budget 3", false),
    ("certify p c --workers --budget 2", false),
    ("certify p c --workers -- 2", false),
    ("certify p c -5", false),
    ("certify p c --work 1", false),
    ("certify p c --=2", false),
    ("certify p c --help", false),
];

// Why the words of a line are refused, if they are. They are split at each blank, so that two blanks
// stand round an empty word.
fn refusal(alloc: Global, line: &str) -> Result<Option<Refused>, Fail> {
    let words: Vec<&str> = line.split(' ').collect(alloc)?;
    Ok(parse(alloc, &words).err())
}

#[test]
fn words_are_taken_or_refused(rt: HostRuntime) -> Result<(), Fail> {
    for (line, taken) in &LINES {
        let refusal = refusal(rt.alloc(), line)?;
        assert!(rt; refusal.is_none() == *taken, "{line}");
        assert!(rt; refusal != Some(Refused::OutOfMemory), "{line}");
    }
    Ok(())
}
