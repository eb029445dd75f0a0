//! Numbers within bounds, and truth values.
ghost use Rattle.std.specs.Prelude.{◌≡◌};
ghost use Rattle.serde_json.specs.View.{view};
ghost use Rattle.sv_json.specs.Form.{any_number, between, truth};

use crate::found::{Flaw, Found};
use crate::part::Part;
use serde_json::Value;

/// A number without bounds but 64 bits.
pub struct AnyNumber;

impl Part for AnyNumber {
    type Made = u64;

    ghost form = { any_number };

    #[tactic(auto, unfolding(crate::specs::Form::any_number))]
    fn read(value: &Value) -> Found<u64> {
        match value.as_u64() {
            Some(number) => Found {
                flaw: Flaw::Fine,
                value: number,
            },
            None => Found {
                flaw: Flaw::Shape,
                value: 0,
            },
        }
    }
}

/// A truth value.
pub struct Truth;

impl Part for Truth {
    type Made = bool;

    ghost form = { truth };

    #[tactic(auto, unfolding(crate::specs::Form::truth))]
    fn read(value: &Value) -> Found<bool> {
        match value.as_bool() {
            Some(truth) => Found {
                flaw: Flaw::Fine,
                value: truth,
            },
            None => Found {
                flaw: Flaw::Shape,
                value: false,
            },
        }
    }
}

/// A number from `lowest` to `most`.
#[tactic(auto, unfolding(crate::specs::Form::between))]
pub fn number_between(value: &Value, lowest: u64, most: u64) -> Found<u64>
    ensures { result ≡ between lowest most (view value.now) }
{
    match value.as_u64() {
        Some(number) => {
            if lowest <= number && number <= most {
                Found {
                    flaw: Flaw::Fine,
                    value: number,
                }
            } else {
                Found {
                    flaw: Flaw::Range,
                    value: 0,
                }
            }
        }
        None => Found {
            flaw: Flaw::Shape,
            value: 0,
        },
    }
}

/// A number from `lowest` to `most` in 32 bits.
#[tactic(auto, unfolding(crate::specs::Form::between))]
pub fn small_between(value: &Value, lowest: u32, most: u32) -> Found<u32>
    ensures { result ≡ between lowest most (view value.now) }
{
    match value.as_u64() {
        Some(number) => {
            if u64::from(lowest) <= number && number <= u64::from(most) {
                Found {
                    flaw: Flaw::Fine,
                    value: number as u32,
                }
            } else {
                Found {
                    flaw: Flaw::Range,
                    value: 0,
                }
            }
        }
        None => Found {
            flaw: Flaw::Shape,
            value: 0,
        },
    }
}
