//! A whole run over a text in memory.
use std::alloc::{AllocError, Global};
use std::sync::Wait;
use std::thread::Threads;
use sv_app::run;
use sv_hub::{Audience, Hub, Listener, Tally};
use sv_io::{MemSink, MemSource, Pace};

// More than any text of these tests is answered.
const ROOM: usize = 100_000;

/// How a run ended, what it wrote, and how many reports its one listener heard.
#[derive(Drop)]
pub struct Run {
    pub number: u8,
    pub written: Vec<u8>,
    pub heard: u64,
}

/// The lines, each with a line feed behind it.
pub fn joined(alloc: Global, lines: &[&str]) -> Result<Vec<u8>, AllocError> {
    let mut text = Vec::new(alloc);
    for line in lines {
        text.extend_from_slice(line.as_bytes())?;
        text.push(b'\n')?;
    }
    Ok(text)
}

/// A run with that one word.
pub fn ran<P: Pace + Sync, R: Threads + Wait + Sync>(
    rt: &R,
    alloc: Global,
    word: &str,
    text: Vec<u8>,
    pace: &P,
) -> Result<Run, AllocError> {
    let mut words = Vec::new(alloc);
    words.push(word.to_string(alloc)?)?;
    let mut source = MemSource::new(text, Vec::new(alloc), Vec::new(alloc));
    let mut sink = MemSink::new(alloc, ROOM, Vec::new(alloc), Vec::new(alloc))?;
    let tally: Box<dyn Listener> = Box::new(alloc, Tally::new(alloc))?;
    let mut hub = Hub::new(alloc);
    let Ok(id) = hub.attach(tally) else {
        return Err(AllocError);
    };
    let status = run(
        rt,
        alloc,
        words.as_slice(),
        &mut source,
        &mut sink,
        pace,
        &mut hub,
    );
    let Some(tally) = hub.detach(id) else {
        return Err(AllocError);
    };
    Ok(Run {
        number: status.number(),
        written: sink.bytes().to_vec(alloc)?,
        heard: tally.count(),
    })
}
