//! A source and a sink in memory, whose calls follow a script of piece sizes and faults.
ghost use Rattle.std.specs.Prelude.{◌≡◌, ℕ, ◌+◌, ◌-◌, ◌^◌, ◌≤◌, ◌<◌, ◌↔◌, [], length, IfOk, Some, drop};
ghost use Rattle.std.specs.Prelude.{min, vec_len, false, All, Contains, IsErr, IsNone, IfSome};
ghost use Rattle.std.specs.Io.{ReadsAtMost};
ghost use Rattle.std.specs.Io.KnownBytes.{ReadConsumes, WriteAppends};
ghost use Rattle.sv_io.specs.Causes.{HasCause, count_of, is_end};
ghost use Rattle.sv_io.specs.Memory.{Script, allowed, after_call, FailsAt};

use crate::{Failed, Sink, Source};
use std::alloc::{AllocError, Global};
use std::marker::Model;

// How the calls of a stream go. Calls count from 0.
#[derive(Drop)]
struct Plan {
    call: u64,
    pieces: Vec<usize>,
    fails: Vec<u64>,
}

impl Model for Plan {
    ghost use Rattle.std.specs.Prelude.{◌<◌, All};
    ghost use Rattle.sv_io.specs.Memory.{Script};

    ghost Value = { Script };

    ghost view = { λ p. record { call = p.call; pieces = p.pieces.items; fails = p.fails.items } };

    ghost invariant = { λ p. All (λ size. 0 < size) p.pieces.items };
}

impl Plan {
    fn new(pieces: Vec<usize>, fails: Vec<u64>) -> Plan
        requires { All (λ size. 0 < size) pieces.items }
        ensures { result ≡ record { call = 0; pieces = pieces.items; fails = fails.items } }
    {
        Plan {
            call: 0,
            pieces,
            fails,
        }
    }

    // How many of the wanted bytes the next call takes: None where it fails.
    fn next(&mut self, wanted: usize) -> Option<usize>
        ensures fails { IsNone result ↔ Contains self.old.fails self.old.call }
        ensures most { IfSome result (λ n. n ≡ allowed self.old wanted) }
        ensures some { IfSome result (λ n. 0 < wanted → 0 < n) }
        ensures after { self.new ≡ after_call self.old }
    {
        let call = self.call;
        self.call = call.saturating_add(1);
        if self.fails.contains(&call) {
            return None;
        }
        match self.pieces.get(call as usize) {
            Some(size) => Some(wanted.min(*size)),
            None => Some(wanted),
        }
    }
}

/// A source of bytes that stand in memory.
#[derive(Drop)]
pub struct MemSource {
    bytes: Vec<u8>,
    place: usize,
    ended: bool,
    faults: u64,
    plan: Plan,
}

impl Model for MemSource {
    ghost use Rattle.std.specs.Prelude.{◌≤◌, drop, vec_len};
    ghost use Rattle.sv_io.specs.Memory.{SourceInMemory};

    ghost Value = { SourceInMemory };

    ghost view = { λ s. record {
      left = drop s.place s.bytes.items;
      given = s.place;
      ended = s.ended;
      faults = s.faults;
      script = s.plan;
    } };

    ghost invariant = { λ s. s.place ≤ vec_len s.bytes };
}

impl MemSource {
    /// A source of these bytes. Calls count from 0: the i-th takes at most the i-th of `pieces`, where
    /// there is one, and those in `fails` fail. No piece is 0.
    pub fn new(bytes: Vec<u8>, pieces: Vec<usize>, fails: Vec<u64>) -> MemSource
        requires { All (λ size. 0 < size) pieces.items }
        ensures { result ≡ record {
          left = bytes.items;
          given = 0;
          ended = false;
          faults = 0;
          script = record { call = 0; pieces = pieces.items; fails = fails.items };
        } }
    {
        MemSource {
            bytes,
            place: 0,
            ended: false,
            faults: 0,
            plan: Plan::new(pieces, fails),
        }
    }
}

impl Source for MemSource {
    ghost left = { λ s. Some s.left };

    ghost given = { λ s. s.given };

    ghost ended = { λ s. s.ended };

    ghost faults = { λ s. s.faults };

    fn read(&mut self, buf: &mut [u8]) -> Result<usize, Failed>
        requires { 0 < length buf.old }
        ensures bound { ReadsAtMost result buf.new }
        ensures bytes { ReadConsumes (Some self.old.left) (Some self.new.left) result buf.new }
        ensures given { self.new.given ≡ self.old.given + count_of result }
        ensures fits { self.new.given < 2 ^ 64 }
        ensures ended { self.new.ended ≡ is_end result }
        ensures cause { HasCause self.old.faults self.new.faults result }

        // It goes as its script says.
        ensures fails { IsErr result ↔ Contains self.old.script.fails self.old.script.call }
        ensures count { IfOk result (λ n. n ≡ min (allowed self.old.script (length buf.old))
            (length self.old.left)) }
        ensures script { self.new.script ≡ after_call self.old.script }
    {
        match self.plan.next(buf.len()) {
            None => {
                self.faults = self.faults.saturating_add(1);
                self.ended = false;
                Err(Failed)
            }
            Some(most) => {
                let count = most.min(self.bytes.len() - self.place);
                let piece = &self.bytes[self.place..self.place + count];
                buf[..count].copy_from_slice(piece);
                self.place += count;
                self.ended = count == 0;
                Ok(count)
            }
        }
    }
}

/// A sink that keeps its bytes in memory, for which it has room from the start.
#[derive(Drop)]
pub struct MemSink {
    bytes: Vec<u8>,
    room: usize,
    faults: u64,
    plan: Plan,
}

impl Model for MemSink {
    ghost use Rattle.std.specs.Prelude.{◌≤◌, vec_len, vec_capacity};
    ghost use Rattle.sv_io.specs.Memory.{SinkInMemory};

    ghost Value = { SinkInMemory };

    ghost view = { λ s. record {
      written = s.bytes.items;
      room = s.room;
      faults = s.faults;
      script = s.plan;
    } };

    ghost invariant = { λ s. (vec_len s.bytes ≤ s.room) × (s.room ≤ vec_capacity s.bytes) };
}

impl MemSink {
    /// A sink with room for so many bytes. Calls count from 0: the i-th takes at most the i-th of `pieces`,
    /// where there is one, and those in `fails` fail, as does one past the room. No piece is 0. Fails only
    /// for want of memory.
    pub fn new(
        alloc: Global,
        room: usize,
        pieces: Vec<usize>,
        fails: Vec<u64>,
    ) -> Result<MemSink, AllocError>
        requires { All (λ size. 0 < size) pieces.items }
        ensures { IfOk result (λ s. s ≡ record {
          written = [];
          room = room;
          faults = 0;
          script = record { call = 0; pieces = pieces.items; fails = fails.items };
        }) }
    {
        Ok(MemSink {
            bytes: Vec::with_capacity(alloc, room)?,
            room,
            faults: 0,
            plan: Plan::new(pieces, fails),
        })
    }

    /// What was written so far.
    pub fn bytes(&self) -> &[u8]
        ensures { result.now ≡ self.now.written }
    {
        self.bytes.as_slice()
    }
}

impl Sink for MemSink {
    ghost written = { λ s. Some s.written };

    ghost faults = { λ s. s.faults };

    fn write(&mut self, piece: &[u8]) -> Result<usize, Failed>
        requires { 0 < length piece.now }
        ensures bound { IfOk result (λ n. (0 < n) × (n ≤ length piece.now)) }
        ensures bytes { WriteAppends (Some self.old.written) (Some self.new.written) result piece.now }
        ensures cause { HasCause self.old.faults self.new.faults result }

        // It goes as its script says, and fails besides where the bytes would pass the room.
        ensures count { IfOk result (λ n. n ≡ allowed self.old.script (length piece.now)) }
        ensures fails { IsErr result ↔ FailsAt self.old (length piece.now) }
        ensures script { self.new.script ≡ after_call self.old.script }
        ensures room { self.new.room ≡ self.old.room }
    {
        if let Some(count) = self.plan.next(piece.len()) {
            if count <= self.room - self.bytes.len()
                && self.bytes.extend_from_slice(&piece[..count]).is_ok()
            {
                return Ok(count);
            }
        }
        self.faults = self.faults.saturating_add(1);
        Err(Failed)
    }
}
