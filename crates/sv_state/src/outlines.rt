//! What dependencies that differ in their range alone have in common.
ghost use Rattle.std.specs.Prelude.{◌≡◌};
ghost use Rattle.sv_state.specs.Outlines as spec;

use sv_model::work::{Dep, Track};

/// Where a dependency comes from, if that is a queue. All other tracks are as one.
fn loose(from: Track) -> Track
    ensures { result ≡ spec.loose from }
{
    match from {
        Track::Queue(q) => Track::Queue(q),
        Track::Sub { .. } => Track::Token(0),
        Track::Token(_) => Track::Token(0),
    }
}

/// The dependency without its range, and without where it comes from, if that is no queue.
pub fn outline(d: &Dep) -> Dep
    ensures { result ≡ spec.outline d.now }
{
    Dep {
        from: loose(d.from),
        s1: d.s1,
        a1: d.a1,
        to: d.to,
        s2: d.s2,
        a2: d.a2,
        range: None,
    }
}
