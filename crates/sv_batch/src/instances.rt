//! How many instances of render scopes each recording of a trace begins.
ghost use Rattle.std.specs.Prelude.{◌≡◌, IfOk, OnOk, count_by, unwrap_or};
ghost use Rattle.std.specs.BTreeMap.{get};
ghost use Rattle.std.specs.Ordering.{nat_cmp};
ghost use Rattle.sv_model.specs.Recordings as compile;
ghost use Rattle.sv_batch.specs.Begun.{HaveInstances, Notes};

use std::alloc::{AllocError, Global};
use std::collections::BTreeMap;
use sv_model::line::{Command, Recording};

fn begins(command: &Command) -> bool
    ensures { result ≡ compile.begins command.now }
{
    matches!(
        command,
        Command::BeginRendering { .. } | Command::BeginPass { .. }
    )
}

fn begun(commands: &[Command]) -> usize
    ensures { result ≡ count_by compile.begins commands.now }
{
    commands.iter().filter(|command| begins(command)).count()
}

// Takes the instances of the recording of a number, which count where none were taken for it before.
fn note(table: &mut BTreeMap<u32, u64>, number: u32, count: u64) -> Result<(), AllocError>
    ensures { OnOk result (Notes table.old table.new number count) }
{
    if table.contains_key(&number) {
        return Ok(());
    }
    table.insert(number, count)?;
    Ok(())
}

/// The instances of each recording, by the numbers of the recordings: of each number the first recording
/// counts. Made once for a trace, so that to publish a recording costs no walk over all of them.
pub fn instances_of(
    alloc: Global,
    recordings: &[Recording],
) -> Result<BTreeMap<u32, u64>, AllocError>
    ensures { IfOk result (HaveInstances recordings.now) }
{
    let mut table = BTreeMap::new(alloc);
    for recording in recordings {
        let count = begun(recording.commands.as_slice());
        note(&mut table, recording.rec, count as u64)?;
    }
    Ok(table)
}

/// The instances of the recording of that number, 0 where there is none.
pub fn instances_at(table: &BTreeMap<u32, u64>, number: u32) -> u64
    ensures { result ≡ unwrap_or (get nat_cmp table.now number) 0 }
{
    match table.get(&number) {
        Some(count) => *count,
        None => 0,
    }
}
