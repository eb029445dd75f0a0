//! Works, recordings and the whole trace.
ghost use Rattle.std.specs.Prelude.{◌≡◌, ℕ, ◌+◌, ◌*◌, ◌<◌, ◌≤◌, ◌++◌, OnOk, IfOk, string_bytes};
ghost use Rattle.sv_gen.specs.Draws.{state_after};
ghost use Rattle.sv_gen.specs.Generated.{work_text, works_text, recording_text, generated};

use crate::draws::Draws;
use crate::lines;
use std::alloc::{AllocError, Global};

// How many works a recording has, but for the last one.
const WORKS: u32 = 100;

#[tactic(auto, unfolding(crate::specs::Generated::work_text))]
fn push_work(text: &mut String, draws: &mut Draws, rec: u32) -> Result<(), AllocError>
    ensures text { OnOk result (string_bytes text.new ≡ string_bytes text.old
        ++ work_text rec draws.old.state) }
    ensures state { draws.new.state ≡ state_after draws.old.state 3 }
{
    let work = draws.draw_work();
    lines::push_work_line(text, rec, work.place, work.b)?;
    lines::push_followed(text, rec, work.c)?;
    Ok(())
}

fn push_works(text: &mut String, draws: &mut Draws, rec: u32, works: u32) -> Result<(), AllocError>
    ensures text { OnOk result (string_bytes text.new ≡ string_bytes text.old
        ++ works_text rec draws.old.state works) }
    ensures state { OnOk result (draws.new.state ≡ state_after draws.old.state (3 * works)) }
{
    for _ in 0..works {
        push_work(text, draws, rec)?;
    }
    Ok(())
}

#[tactic(auto, unfolding(crate::specs::Generated::recording_text))]
fn push_recording(
    text: &mut String,
    draws: &mut Draws,
    rec: u32,
    works: u32,
) -> Result<(), AllocError>
    ensures text { OnOk result (string_bytes text.new ≡ string_bytes text.old
        ++ recording_text rec draws.old.state works) }
    ensures state { OnOk result (draws.new.state ≡ state_after draws.old.state (3 * works)) }
{
    let lane = rec % 2;
    lines::push_begin(text, rec, lane)?;
    push_works(text, draws, rec, works)?;
    lines::push_end(text, rec)?;
    lines::push_submit(text, rec, lane)?;
    Ok(())
}

/// The text of a trace with this many works, 1 to 100000, which the seed determines. Fails only for want of
/// memory.
pub fn generate(alloc: Global, seed: u64, count: u32) -> Result<Vec<u8>, AllocError>
    requires { (1 ≤ count) × (count ≤ 100000) }
    ensures { IfOk result (λ text. text.items ≡ generated seed count) }
{
    let mut text = String::new(alloc);
    lines::push_opening(&mut text)?;
    let mut draws = Draws::new(seed);
    for rec in 0..count.div_ceil(WORKS) {
        let works = WORKS.min(count - WORKS * rec);
        push_recording(&mut text, &mut draws, rec, works)?;
    }
    Ok(text.into_bytes())
}
