//! Texts that are read through the checker.
use crate::read_text;
use std::test::Fail;
use sv_model::refusal::{Cause, Fault};

// Texts, and of each the line and the number of its refusal: 0 and 0 where it is taken.
static TEXTS: [(&str, u64, u64); 9] = [
    ("", 0, 0),
    // a recording of a copy, submitted
    (
        "{\"op\":\"queue\",\"queue\":0,\"family\":0,\"lane\":0}\n{\"op\":\"buffer\",\"res\":0,\"size\":64}\n{\"op\":\"begin\",\"rec\":0,\"recorder\":0,\"family\":0}\n{\"op\":\"work\",\"rec\":0,\"accesses\":[{\"res\":0,\"stage\":\"copy\",\"access\":\"transfer_write\",\"start\":0,\"end\":64}]}\n{\"op\":\"end\",\"rec\":0}\n{\"op\":\"submit\",\"lane\":0,\"queue\":0,\"batches\":[{\"recs\":[0]}]}\n",
        0,
        0,
    ),
    // blank lines are counted
    ("\n \n{\"op\":\"wait_device\",\"lane\":0}\n{", 4, 1),
    ("{\"op\":\"event\",\"event\":0}\n{\"op\":\"event\"}\n", 2, 2),
    // an earlier line counts before one with a lesser number
    (
        "{\"op\":\"event\",\"event\":0}\n{\"op\":\"event\",\"event\":0}\n{\"op\":\"event\"}\n",
        2,
        6,
    ),
    // the buffer is not declared, and the part is empty
    (
        "{\"op\":\"begin\",\"rec\":0,\"recorder\":0,\"family\":0}\n{\"op\":\"work\",\"rec\":0,\"accesses\":[{\"res\":0,\"stage\":\"copy\",\"access\":\"transfer_write\",\"start\":4,\"end\":4}]}\n",
        2,
        5,
    ),
    // the recorder has an open recording
    (
        "{\"op\":\"begin\",\"rec\":0,\"recorder\":0,\"family\":0}\n{\"op\":\"begin\",\"rec\":1,\"recorder\":0,\"family\":0}\n",
        2,
        10,
    ),
    (
        "{\"op\":\"wait_device\",\"lane\":0}\n{\"op\":\"version\",\"number\":1}\n",
        2,
        10,
    ),
    // a recording is open at the end, which counts as one more line
    (
        "{\"op\":\"begin\",\"rec\":0,\"recorder\":0,\"family\":0}\n\n",
        3,
        15,
    ),
];

// The number of the causes of these texts, and 16 of the others.
fn number_of(cause: Cause) -> u64 {
    match cause {
        Cause::BadJson => 1,
        Cause::BadShape => 2,
        Cause::Undeclared => 5,
        Cause::DeclaredTwice => 6,
        Cause::WrongPlace => 10,
        Cause::Unfinished => 15,
        _ => 16,
    }
}

fn refusal_of(rt: &HostRuntime, text: &[u8]) -> (u64, u64) {
    match read_text(rt.alloc(), text) {
        Ok(_) => (0, 0),
        Err(Fault::Memory) => (0, 99),
        Err(Fault::Refused(refusal)) => (refusal.line, number_of(refusal.cause)),
    }
}

#[test]
fn reads(rt: HostRuntime) -> Result<(), Fail> {
    for (text, line, number) in &TEXTS {
        let (at, cause) = refusal_of(&rt, text.as_bytes());
        assert_eq!(rt; at, *line, "at {text}");
        assert_eq!(rt; cause, *number, "at {text}");
    }
    Ok(())
}
