//! What is known of a recording.
ghost use Rattle.std.specs.Prelude.{◌≡◌, option_map};
ghost use Rattle.sv_lines.specs.KnownParts as spec;

use sv_rules::standing::Standing;

/// Its recorder and family, whether it has ended, where its next command stands, and its size so far.
#[derive(Clone, Copy, PartialEq)]
pub struct Known {
    pub recorder: u32,
    pub family: u32,
    pub ended: bool,
    pub standing: Standing,
    pub size: u64,
}

/// The family of a recording, where it is known.
pub fn family_of(known: Option<Known>) -> Option<u32>
    ensures { result ≡ spec.family_of known }
{
    match known {
        Some(known) => Some(known.family),
        None => None,
    }
}

/// Whether a recording is known to have ended.
pub fn ended_of(known: Option<Known>) -> bool
    ensures { result ≡ spec.ended_of known }
{
    match known {
        Some(known) => known.ended,
        None => false,
    }
}

/// Where the next command of a recording stands.
pub fn standing_of(known: Option<Known>) -> Standing
    ensures { result ≡ spec.standing_of known }
{
    match known {
        Some(known) => known.standing,
        None => Standing::Outside,
    }
}

/// The size of a recording so far.
pub fn size_of(known: Option<Known>) -> u64
    ensures { result ≡ spec.size_of known }
{
    match known {
        Some(known) => known.size,
        None => 0,
    }
}
