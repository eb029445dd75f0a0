//! Runs in the order of their numbers, which are those of tokens or of render pass instances.
ghost use Rattle.std.specs.Prelude.{◌≡◌, ◌<◌, ◌≤◌, ℕ, IsTrue, true, false, ◌↔◌, OnOk, MatchOption, length};
ghost use Rattle.std.specs.Prelude.{slice_index_or};
ghost use Rattle.sv_model.specs.declared.work.Track.{Track};
ghost use Rattle.sv_state.specs.Masks.{Adds, LeadsInto};
ghost use Rattle.sv_state.specs.Numbers.{AreApart, GoesOn, IsNoneOn, IsOnlyOn, on_token};
ghost use Rattle.sv_state.specs.Numbers.{runs_masks};
ghost use Rattle.sv_state.specs.Turns.{AreInTurn, EndBefore, EndBy, HaveNumbers, Reach};

use crate::mask::{Mask, joined, leads};
use std::alloc::AllocError;
use sv_mask::{Stages, Usages};
use sv_model::work::{Dep, Track};

/// What is reached on the tracks of the numbers from `first` to `last`: on each the same.
#[derive(Clone, Copy)]
pub struct Run {
    pub first: u64,
    pub last: u64,
    pub stages: Stages,
    pub usages: Usages,
}

/// Whether the run goes on with this number and mask.
fn goes_on(r: Run, number: u64, m: Mask) -> bool
    ensures { result ≡ true → GoesOn r number m }
{
    let next = r.last < number && number - r.last == 1 && r.first <= number;
    next && r.stages.0 == m.stages.0 && r.usages.0 == m.usages.0
}

/// Whether each run ends before the number.
fn end_before(runs: &[Run], number: u64) -> bool
    requires in_turn { AreInTurn runs.now }
    requires have_numbers { HaveNumbers runs.now }
    ensures before { result ≡ true → EndBefore number runs.now }
    ensures reach { result ≡ false → Reach number runs.now }
{
    let count = runs.len();
    if count == 0 {
        return true;
    }
    runs[count - 1].last < number
}

/// Whether no run ends behind the number.
pub fn end_by(runs: &[Run], number: u64) -> bool
    ensures { result ≡ true → EndBy number runs.now }
{
    let count = runs.len();
    if count == 0 {
        return true;
    }
    runs[count - 1].last <= number
}

/// Adds what is reached at a number behind those of the runs.
fn add_behind(runs: &mut Vec<Run>, number: u64, more: Mask) -> Result<(), AllocError>
    requires behind { EndBefore number runs.old.items }
    requires in_turn { AreInTurn runs.old.items }
    requires have_numbers { HaveNumbers runs.old.items }
    ensures adds { OnOk result ((place : ℕ → Track) → more.track ≡ place number
        → Adds (runs_masks place runs.old.items) (runs_masks place runs.new.items) more) }
    ensures in_turn { AreInTurn runs.new.items }
    ensures have_numbers { HaveNumbers runs.new.items }
{
    let count = runs.len();
    if count > 0 {
        let r = runs[count - 1];
        if goes_on(r, number, more) {
            runs[count - 1] = Run { last: number, ..r };
            return Ok(());
        }
    }
    runs.push(Run {
        first: number,
        last: number,
        stages: more.stages,
        usages: more.usages,
    })?;
    Ok(())
}

/// Takes the number, at which the last run ends, off it, and gives what is reached there.
fn take_off(runs: &mut Vec<Run>, number: u64, track: Track) -> Mask
    requires by { EndBy number runs.old.items }
    requires reach { Reach number runs.old.items }
    requires in_turn { AreInTurn runs.old.items }
    requires have_numbers { HaveNumbers runs.old.items }
    ensures adds { (place : ℕ → Track) → track ≡ place number
        → Adds (runs_masks place runs.new.items) (runs_masks place runs.old.items) result }
    ensures track { result.track ≡ track }
    ensures behind { EndBefore number runs.new.items }
    ensures in_turn { AreInTurn runs.new.items }
    ensures have_numbers { HaveNumbers runs.new.items }
{
    let count = runs.len();
    let r = runs[count - 1];
    let taken = Mask {
        track,
        stages: r.stages,
        usages: r.usages,
    };
    if r.first < number {
        runs[count - 1] = Run {
            last: number - 1,
            ..r
        };
        return taken;
    }
    runs.truncate(count - 1);
    taken
}

/// Adds what is reached at the number at which the last run ends.
fn add_last(runs: &mut Vec<Run>, number: u64, more: Mask) -> Result<(), AllocError>
    requires by { EndBy number runs.old.items }
    requires reach { Reach number runs.old.items }
    requires in_turn { AreInTurn runs.old.items }
    requires have_numbers { HaveNumbers runs.old.items }
    ensures adds { OnOk result ((place : ℕ → Track) → more.track ≡ place number
        → Adds (runs_masks place runs.old.items) (runs_masks place runs.new.items) more) }
    ensures in_turn { AreInTurn runs.new.items }
    ensures have_numbers { HaveNumbers runs.new.items }
{
    let taken = take_off(runs, number, more.track);
    let both = joined(taken, more);
    add_behind(runs, number, both)
}

/// Adds what is reached at a number before which all runs end, or at which the last one ends.
pub fn add_at(runs: &mut Vec<Run>, number: u64, more: Mask) -> Result<(), AllocError>
    requires by { EndBy number runs.old.items }
    requires in_turn { AreInTurn runs.old.items }
    requires have_numbers { HaveNumbers runs.old.items }
    ensures adds { OnOk result ((place : ℕ → Track) → more.track ≡ place number
        → Adds (runs_masks place runs.old.items) (runs_masks place runs.new.items) more) }
    ensures in_turn { AreInTurn runs.new.items }
    ensures have_numbers { HaveNumbers runs.new.items }
{
    if end_before(runs, number) {
        add_behind(runs, number, more)
    } else {
        add_last(runs, number, more)
    }
}

/// How many of the runs end before the number.
fn ended_before(runs: &[Run], number: u64) -> usize
    requires in_turn { AreInTurn runs.now }
    requires have_numbers { HaveNumbers runs.now }
    ensures listed { result ≤ length runs.now }
    ensures before { (k : ℕ) (d : Run) → k < result → (slice_index_or runs.now k d).last < number }
    ensures behind { (k : ℕ) (d : Run) → result ≤ k → k < length runs.now
        → number ≤ (slice_index_or runs.now k d).last }
{
    let mut low = 0;
    let mut high = runs.len();
    while low < high {
        let middle = low + (high - low) / 2;
        if runs[middle].last < number {
            low = middle + 1;
        } else {
            high = middle;
        }
    }
    low
}

/// What is reached at the number, whose track is given.
pub fn mask_at(runs: &[Run], number: u64, track: Track) -> Option<Mask>
    requires in_turn { AreInTurn runs.now }
    requires have_numbers { HaveNumbers runs.now }
    ensures { MatchOption result
        ((place : ℕ → Track) → track ≡ place number → AreApart place number
        → IsNoneOn (runs_masks place runs.now) track)
        (λ m. (place : ℕ → Track) → track ≡ place number → AreApart place number
        → IsOnlyOn (runs_masks place runs.now) track m) }
{
    let place = ended_before(runs, number);
    if place < runs.len() {
        let r = runs[place];
        if r.first <= number {
            return Some(Mask {
                track,
                stages: r.stages,
                usages: r.usages,
            });
        }
    }
    None
}

/// Whether d, which comes from this token, may follow what is reached on tokens.
fn token_leads(runs: &[Run], token: u64, d: &Dep) -> bool
    requires from { d.now.from ≡ Track.Token token }
    requires in_turn { AreInTurn runs.now }
    requires have_numbers { HaveNumbers runs.now }
    ensures { IsTrue result ↔ LeadsInto (runs_masks on_token runs.now) d.now }
{
    match mask_at(runs, token, d.from) {
        Some(m) => leads(m, d),
        None => false,
    }
}

/// Whether d may follow what is reached on tokens.
pub fn tokens_lead(runs: &[Run], d: &Dep) -> bool
    requires in_turn { AreInTurn runs.now }
    requires have_numbers { HaveNumbers runs.now }
    ensures { IsTrue result ↔ LeadsInto (runs_masks on_token runs.now) d.now }
{
    match d.from {
        Track::Token(token) => token_leads(runs, token, d),
        _ => false,
    }
}
