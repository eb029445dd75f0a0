//! Whole texts, read to their end and written to their last byte.
ghost use Rattle.std.specs.Prelude.{◌≡◌, ◌≢◌, ℕ, true, ◌+◌, ◌<◌, ◌≤◌, ◌↔◌, length, take, vec_len, IfOk};
ghost use Rattle.std.specs.Prelude.{IfSome, OnErr, OnOk, IsErrOf};
ghost use Rattle.std.specs.Io.KnownBytes.{Appends, IsAtEnd};
ghost use Rattle.sv_io.specs.Causes.{HasCause, Rose};

use crate::{Failed, Sink, Source};
use std::alloc::{AllocError, Global};
use thiserror::Error;

/// The most bytes that a text has.
pub const MAX_TEXT: usize = 67_108_864;

// How many bytes one read asks for.
const PIECE: usize = 65_536;

/// Why a text was not read.
#[derive(Clone, Copy, Debug, Error)]
pub enum ReadStop {
    /// A read failed.
    #[error("read fault")]
    Failed,
    /// The source gave more than [`MAX_TEXT`] bytes.
    #[error("too long")]
    TooLong,
    /// There is no memory.
    #[error("out of memory")]
    Memory,
}

// Room for what one read gives.
fn blank_piece(alloc: Global) -> Result<Vec<u8>, AllocError>
    ensures { IfOk result (λ v. vec_len v ≡ PIECE) }
{
    vec![in alloc; 0; PIECE]
}

/// Reads to the end, and gives all bytes that were read. Stops with `Failed` at the first fault, with
/// `TooLong` at the first read with which the text has more than [`MAX_TEXT`] bytes, and with `Memory` for
/// want of memory.
pub fn read_all<S: Source>(alloc: Global, source: &mut S) -> Result<Vec<u8>, ReadStop>
    ensures failed { IsErrOf result ReadStop.Failed → Rose (S.faults source.old) (S.faults source.new) }
    ensures no_fault { result ≢ Err ReadStop.Failed → S.faults source.new ≡ S.faults source.old }
    ensures too_long { IsErrOf result ReadStop.TooLong
        ↔ (S.given source.old + 67108864 < S.given source.new) }
    ensures limit { result ≢ Err ReadStop.TooLong → S.given source.new ≤ S.given source.old + 67108864 }
    ensures forward { S.given source.old ≤ S.given source.new }
    ensures given { IfOk result (λ v. S.given source.new ≡ S.given source.old + vec_len v) }
    ensures ended { OnOk result (S.ended source.new ≡ true) }
    ensures all { IfOk result (λ v. IfSome (S.left source.old) (λ bytes. v.items ≡ bytes)) }
    ensures nothing_left { OnOk result (IsAtEnd (S.left source.new)) }
{
    let mut bytes = Vec::new(alloc);
    let mut piece = match blank_piece(alloc) {
        Ok(piece) => piece,
        Err(_) => return Err(ReadStop::Memory),
    };
    'reading: loop {
        match source.read(&mut piece) {
            Err(Failed) => return Err(ReadStop::Failed),
            Ok(0) => return Ok(bytes),
            Ok(count) => {
                if count > MAX_TEXT - bytes.len() {
                    return Err(ReadStop::TooLong);
                }
                if bytes.extend_from_slice(&piece[..count]).is_err() {
                    return Err(ReadStop::Memory);
                }
            }
        }
    }
}

/// Writes all the bytes, or at a fault a prefix of them. Takes no memory.
pub fn write_all<K: Sink>(sink: &mut K, bytes: &[u8]) -> Result<(), Failed>
    ensures cause { HasCause (K.faults sink.old) (K.faults sink.new) result }
    ensures ok { OnOk result (Appends (K.written sink.old) (K.written sink.new) bytes.now) }
    ensures prefix { OnErr result ((n : ℕ) × (n ≤ length bytes.now)
        × Appends (K.written sink.old) (K.written sink.new) (take n bytes.now)) }
{
    let mut done = 0;
    while done < bytes.len() {
        done += sink.write(&bytes[done..])?;
    }
    Ok(())
}
