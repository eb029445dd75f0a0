//! Standard input and output: what comes in and goes out there, no clause can say.
ghost use Rattle.std.specs.Prelude.{◌≡◌, [], None, false};

use crate::{Failed, Sink, Source};
use std::io::{Read, Stdin, Stdout, Write};

/// Standard input as a source, which tells no bytes.
#[derive(Drop)]
pub struct StdSource {
    stdin: Stdin,
    given: u64,
    ended: bool,
    faults: u64,
}

impl StdSource {
    /// A source that gave nothing yet.
    pub fn new(stdin: Stdin) -> StdSource
        ensures given { ⟦<StdSource as Source>⟧.given result ≡ 0 }
        ensures ended { ⟦<StdSource as Source>⟧.ended result ≡ false }
        ensures faults { ⟦<StdSource as Source>⟧.faults result ≡ 0 }
    {
        StdSource {
            stdin,
            given: 0,
            ended: false,
            faults: 0,
        }
    }
}

impl Source for StdSource {
    ghost left = { λ s. None };

    ghost given = { λ s. s.given };

    ghost ended = { λ s. s.ended };

    ghost faults = { λ s. s.faults };

    fn read(&mut self, buf: &mut [u8]) -> Result<usize, Failed> {
        if buf.len() as u64 <= u64::MAX - self.given {
            if let Ok(count) = self.stdin.read(buf) {
                self.given += count as u64;
                self.ended = count == 0;
                return Ok(count);
            }
        }
        self.ended = false;
        self.faults = self.faults.saturating_add(1);
        Err(Failed)
    }
}

/// Standard output as a sink, which tells no bytes.
#[derive(Drop)]
pub struct StdSink {
    stdout: Stdout,
    faults: u64,
}

impl StdSink {
    /// A sink that took nothing yet.
    pub fn new(stdout: Stdout) -> StdSink
        ensures { ⟦<StdSink as Sink>⟧.faults result ≡ 0 }
    {
        StdSink { stdout, faults: 0 }
    }
}

impl Sink for StdSink {
    ghost written = { λ s. None };

    ghost faults = { λ s. s.faults };

    fn write(&mut self, piece: &[u8]) -> Result<usize, Failed> {
        if let Ok(count) = self.stdout.write(piece) {
            if count > 0 {
                return Ok(count);
            }
        }
        self.faults = self.faults.saturating_add(1);
        Err(Failed)
    }
}
