//! `svval`: checks or replays the trace on standard input, or generates one, and writes to standard output.
//! The program ends with the number of the run's status, 0 to 7.
//!
//! - knows the process that it runs in
//! - definitions: those of `sv_app`
//! - used by nothing: it is the program
#![tactic(auto)]

use std::alloc::{AllocError, Global};
use std::env;
use std::io::ErrorKind;
use std::process::ExitCode;
use std::sync::Wait;
use std::thread::Threads;
use sv_app::{Status, run};
use sv_hub::{Hub, Listener, Tally};
use sv_io::{Idle, Sink, Source, StdSink, StdSource};

// The arguments after the program's name. One that is not text can only be wrong usage.
fn words(rt: &HostRuntime) -> Result<Vec<String>, Status> {
    match env::args(rt) {
        Ok(args) => args.skip(1).collect(rt.alloc()).map_err(|_| Status::Memory),
        Err(error) if error.kind() == ErrorKind::OutOfMemory => Err(Status::Memory),
        Err(_) => Err(Status::Usage),
    }
}

// The reports are heard by one tally, and a replay is not held up between its events.
fn run_words<S: Source, K: Sink, R: Threads + Wait + Sync>(
    rt: &R,
    alloc: Global,
    words: &[String],
    source: &mut S,
    sink: &mut K,
) -> Result<Status, AllocError> {
    let mut hub = Hub::new(alloc);
    let tally: Box<dyn Listener> = Box::new(alloc, Tally::new(alloc))?;
    if hub.attach(tally).is_err() {
        return Err(AllocError);
    }
    Ok(run(rt, alloc, words, source, sink, &Idle, &mut hub))
}

// What standard error is told of a run that did not write its whole answer.
fn complaint(status: Status) -> Option<&'static str> {
    match status {
        Status::Clean | Status::Found | Status::Refused => None,
        Status::Usage => Some("usage: svval check|replay|gen SEED COUNT|bench SEED COUNT"),
        Status::ReadFault => Some("read fault"),
        Status::WriteFault => Some("write fault"),
        Status::Memory => Some("out of memory"),
        Status::TooLong => Some("too long"),
    }
}

fn main(rt: HostRuntime) -> ExitCode {
    let mut source = StdSource::new(rt.stdin());
    let mut sink = StdSink::new(rt.stdout());
    let status = match words(&rt) {
        Ok(words) => {
            let ran = run_words(&rt, rt.alloc(), words.as_slice(), &mut source, &mut sink);
            ran.unwrap_or(Status::Memory)
        }
        Err(status) => status,
    };
    if let Some(text) = complaint(status) {
        // Where standard error takes nothing, the status still tells.
        let _ = rt.eprintln(text);
    }
    ExitCode::from(status.number())
}
