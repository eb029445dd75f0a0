//! Numbers with bounds.
ghost use Rattle.sv_json.specs.Form.{between};
ghost use Rattle.sv_parts.specs.Parts.{slot, number, index};

use serde_json::Value;
use sv_json::{Found, Part, number_between, small_between};

/// A queue, a lane or a recorder: 0 to 15.
pub struct Slot;

impl Part for Slot {
    type Made = u32;

    ghost form = { slot };

    fn read(value: &Value) -> Found<u32> {
        small_between(value, 0, 15)
    }
}

/// A resource, semaphore, event, fence, pass, recording or family: 0 to 65535.
pub struct Number;

impl Part for Number {
    type Made = u32;

    ghost form = { number };

    fn read(value: &Value) -> Found<u32> {
        small_between(value, 0, 65535)
    }
}

/// An attachment or subpass of a render pass, before it is compared with the line's own lists.
pub struct Index;

impl Part for Index {
    type Made = u32;

    ghost form = { index };

    fn read(value: &Value) -> Found<u32> {
        small_between(value, 0, 4294967295)
    }
}

/// The number of a version: 1.
pub struct VersionNumber;

impl Part for VersionNumber {
    type Made = u64;

    ghost form = { between 1 1 };

    fn read(value: &Value) -> Found<u64> {
        number_between(value, 1, 1)
    }
}

/// The bytes of a buffer: 1 to 2^40.
pub struct Size;

impl Part for Size {
    type Made = u64;

    ghost form = { between 1 1099511627776 };

    fn read(value: &Value) -> Found<u64> {
        number_between(value, 1, 1099511627776)
    }
}

/// The mips of an image: 1 to 16.
pub struct Mips;

impl Part for Mips {
    type Made = u32;

    ghost form = { between 1 16 };

    fn read(value: &Value) -> Found<u32> {
        small_between(value, 1, 16)
    }
}

/// The layers of an image: 1 to 2048.
pub struct Layers;

impl Part for Layers {
    type Made = u32;

    ghost form = { between 1 2048 };

    fn read(value: &Value) -> Found<u32> {
        small_between(value, 1, 2048)
    }
}
