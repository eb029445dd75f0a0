//! The lines of a trace.
ghost use Rattle.std.specs.Prelude.{◌≡◌, ◌<◌, ◌++◌, OnOk, string_bytes};
ghost use Rattle.sv_gen.specs.Generated.{opening_text, op_text, member_text, begin_line, end_line};
ghost use Rattle.sv_gen.specs.Generated.{access_name, access_text, work_line, deps_text, barrier_line};
ghost use Rattle.sv_gen.specs.Generated.{followed_text, point_text, recs_text, batch_text, submit_line};

use std::alloc::AllocError;

// Two lanes with a queue each, a buffer and a timeline semaphore.
#[tactic(auto, unfolding(crate::specs::Generated::opening_text))]
pub(crate) fn push_opening(text: &mut String) -> Result<(), AllocError>
    ensures { OnOk result (string_bytes text.new ≡ string_bytes text.old ++ opening_text) }
{
    text.push_str("{\"op\":\"queue\",\"queue\":0,\"family\":0,\"lane\":0}\n")?;
    text.push_str("{\"op\":\"queue\",\"queue\":1,\"family\":0,\"lane\":1}\n")?;
    text.push_str("{\"op\":\"buffer\",\"res\":0,\"size\":65536}\n")?;
    text.push_str("{\"op\":\"semaphore\",\"sem\":0,\"kind\":\"timeline\",\"initial\":0}\n")
}

// The start of a line.
#[tactic(auto, unfolding(crate::specs::Generated::op_text))]
fn push_op(text: &mut String, op: &str) -> Result<(), AllocError>
    ensures { OnOk result (string_bytes text.new ≡ string_bytes text.old ++ op_text op.now) }
{
    write!(text, "{{\"op\":\"{op}\"")
}

// A member with a number.
#[tactic(auto, unfolding(crate::specs::Generated::member_text))]
fn push_member(text: &mut String, name: &str, value: u64) -> Result<(), AllocError>
    ensures { OnOk result (string_bytes text.new ≡ string_bytes text.old ++ member_text name.now value) }
{
    write!(text, ",\"{name}\":{value}")
}

#[tactic(auto, unfolding(crate::specs::Generated::begin_line))]
pub(crate) fn push_begin(text: &mut String, rec: u32, recorder: u32) -> Result<(), AllocError>
    ensures { OnOk result (string_bytes text.new ≡ string_bytes text.old ++ begin_line rec recorder) }
{
    push_op(text, "begin")?;
    push_member(text, "rec", u64::from(rec))?;
    push_member(text, "recorder", u64::from(recorder))?;
    text.push_str(",\"family\":0}\n")?;
    Ok(())
}

#[tactic(auto, unfolding(crate::specs::Generated::end_line))]
pub(crate) fn push_end(text: &mut String, rec: u32) -> Result<(), AllocError>
    ensures { OnOk result (string_bytes text.new ≡ string_bytes text.old ++ end_line rec) }
{
    push_op(text, "end")?;
    push_member(text, "rec", u64::from(rec))?;
    text.push_str("}\n")?;
    Ok(())
}

fn access_word(b: u64) -> &'static str
    ensures { result.now ≡ access_name b }
{
    if b == 0 {
        "transfer_read"
    } else {
        "transfer_write"
    }
}

#[tactic(auto, unfolding(crate::specs::Generated::access_text))]
fn push_access(text: &mut String, b: u64) -> Result<(), AllocError>
    ensures { OnOk result (string_bytes text.new ≡ string_bytes text.old ++ access_text b) }
{
    text.push_str(",\"accesses\":[{\"res\":0,\"stage\":\"copy\",\"access\":\"")?;
    text.push_str(access_word(b))?;
    text.push_str("\"")?;
    Ok(())
}

// A work on the 16 bytes of a place, which reads where `b` is 0, and else writes.
#[tactic(auto, unfolding(crate::specs::Generated::work_line))]
pub(crate) fn push_work_line(
    text: &mut String,
    rec: u32,
    place: u64,
    b: u64,
) -> Result<(), AllocError>
    requires { place < 4096 }
    ensures { OnOk result (string_bytes text.new ≡ string_bytes text.old ++ work_line rec place b) }
{
    push_op(text, "work")?;
    push_member(text, "rec", u64::from(rec))?;
    push_access(text, b)?;
    push_member(text, "start", 16 * place)?;
    push_member(text, "end", 16 * place + 16)?;
    text.push_str("}]}\n")?;
    Ok(())
}

#[tactic(auto, unfolding(crate::specs::Generated::deps_text))]
fn push_deps(text: &mut String) -> Result<(), AllocError>
    ensures { OnOk result (string_bytes text.new ≡ string_bytes text.old ++ deps_text) }
{
    text.push_str(
        ",\"deps\":[{\"src\":[\"copy\"],\"src_access\":[\"transfer_write\"],\"dst\":[\"copy\"],\"dst_access\":[\"transfer_read\",\"transfer_write\"]}]}\n",
    )
}

// A barrier from the writes of copies to the reads and writes of copies.
#[tactic(auto, unfolding(crate::specs::Generated::barrier_line))]
fn push_barrier(text: &mut String, rec: u32) -> Result<(), AllocError>
    ensures { OnOk result (string_bytes text.new ≡ string_bytes text.old ++ barrier_line rec) }
{
    push_op(text, "barrier")?;
    push_member(text, "rec", u64::from(rec))?;
    push_deps(text)?;
    Ok(())
}

// A barrier, where `c` is not 0.
#[tactic(auto, unfolding(crate::specs::Generated::followed_text))]
pub(crate) fn push_followed(text: &mut String, rec: u32, c: u64) -> Result<(), AllocError>
    ensures { OnOk result (string_bytes text.new ≡ string_bytes text.old ++ followed_text rec c) }
{
    if c == 0 {
        return Ok(());
    }
    push_barrier(text, rec)?;
    Ok(())
}

// A wait or a signal of the semaphore by all commands.
#[tactic(auto, unfolding(crate::specs::Generated::point_text))]
fn push_point(text: &mut String, word: &str, value: u64) -> Result<(), AllocError>
    ensures { OnOk result (string_bytes text.new ≡ string_bytes text.old ++ point_text word.now value) }
{
    write!(text, "\"{word}\":[{{\"sem\":0")?;
    push_member(text, "value", value)?;
    text.push_str(",\"stages\":[\"all_commands\"]}]")?;
    Ok(())
}

#[tactic(auto, unfolding(crate::specs::Generated::recs_text))]
fn push_recs(text: &mut String, rec: u32) -> Result<(), AllocError>
    ensures { OnOk result (string_bytes text.new ≡ string_bytes text.old ++ recs_text rec) }
{
    write!(text, ",\"recs\":[{rec}],")
}

// A batch that waits for the value that the one before it signals.
#[tactic(auto, unfolding(crate::specs::Generated::batch_text))]
fn push_batch(text: &mut String, rec: u32) -> Result<(), AllocError>
    ensures { OnOk result (string_bytes text.new ≡ string_bytes text.old ++ batch_text rec) }
{
    push_point(text, "waits", u64::from(rec))?;
    push_recs(text, rec)?;
    push_point(text, "signals", u64::from(rec) + 1)?;
    Ok(())
}

#[tactic(auto, unfolding(crate::specs::Generated::submit_line))]
pub(crate) fn push_submit(text: &mut String, rec: u32, lane: u32) -> Result<(), AllocError>
    ensures { OnOk result (string_bytes text.new ≡ string_bytes text.old ++ submit_line rec lane) }
{
    push_op(text, "submit")?;
    push_member(text, "lane", u64::from(lane))?;
    push_member(text, "queue", u64::from(lane))?;
    text.push_str(",\"batches\":[{")?;
    push_batch(text, rec)?;
    text.push_str("}]}\n")?;
    Ok(())
}
