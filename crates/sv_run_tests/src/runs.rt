//! A run over a text in memory, whose reads and writes fail as told.
use std::alloc::{AllocError, Global};
use sv_app::check_run;
use sv_hub::{Audience, Hub, Listener, Tally};
use sv_io::{MemSink, MemSource};
use sv_words::is_replay;

// More than what any of these runs writes.
const ROOM: usize = 1048576;

// No call has this number.
const NEVER: u64 = u64::MAX;

/// Which call of the source fails, and which of the sink. Calls count from 0.
#[derive(Clone, Copy)]
pub struct Faults {
    source: u64,
    sink: u64,
}

pub const NO_FAULT: Faults = Faults {
    source: NEVER,
    sink: NEVER,
};

pub const SECOND_READ_FAILS: Faults = Faults {
    source: 1,
    sink: NEVER,
};

pub const FIRST_WRITE_FAILS: Faults = Faults {
    source: NEVER,
    sink: 0,
};

pub const SECOND_WRITE_FAILS: Faults = Faults {
    source: NEVER,
    sink: 1,
};

/// How a run ended, what it wrote, and how many reports its one listener heard.
#[derive(Drop)]
pub struct Run {
    pub number: u8,
    pub written: Vec<u8>,
    pub heard: u64,
}

/// The lines, each with a line feed behind it.
pub fn joined(alloc: Global, lines: &[&str]) -> Result<Vec<u8>, AllocError> {
    let mut text = Vec::new(alloc);
    for line in lines {
        text.extend_from_slice(line.as_bytes())?;
        text.push(b'\n')?;
    }
    Ok(text)
}

fn words_of(alloc: Global, words: &[&str]) -> Result<Vec<String>, AllocError> {
    let mut all = Vec::new(alloc);
    for word in words {
        all.push(word.to_string(alloc)?)?;
    }
    Ok(all)
}

/// A run of words that are not `replay`, over a source and a sink with these faults, whose first calls take
/// 8 bytes.
pub fn ran_with(
    alloc: Global,
    words: &[&str],
    text: Vec<u8>,
    faults: Faults,
) -> Result<Run, AllocError> {
    let words = words_of(alloc, words)?;
    let first = vec![in alloc; 8usize]?;
    let mut source = MemSource::new(text, first, vec![in alloc; faults.source]?);
    let first = vec![in alloc; 8usize]?;
    let mut sink = MemSink::new(alloc, ROOM, first, vec![in alloc; faults.sink]?)?;
    let tally: Box<dyn Listener> = Box::new(alloc, Tally::new(alloc))?;
    let mut hub = Hub::new(alloc);
    let Ok(id) = hub.attach(tally) else {
        return Err(AllocError);
    };
    if is_replay(words.as_slice()) {
        return Err(AllocError);
    }
    let status = check_run(alloc, words.as_slice(), &mut source, &mut sink, &mut hub);
    let Some(tally) = hub.detach(id) else {
        return Err(AllocError);
    };
    Ok(Run {
        number: status.number(),
        written: sink.bytes().to_vec(alloc)?,
        heard: tally.count(),
    })
}

/// A run of words that are not `replay`, in which nothing fails.
pub fn ran(alloc: Global, words: &[&str], text: Vec<u8>) -> Result<Run, AllocError> {
    ran_with(alloc, words, text, NO_FAULT)
}
