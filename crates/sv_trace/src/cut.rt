//! The lines of a text.
ghost use Rattle.std.specs.Prelude.{◌≡◌, ◌==◌, List, ℕ, map, IfOk};
ghost use Rattle.std.specs.List.{slice_split};
ghost use Rattle.sv_trace.specs.Text.{lines_of, ends_empty, but_empty_last};

use std::alloc::{AllocError, Global};

fn pieces(alloc: Global, bytes: &[u8]) -> Result<Vec<&[u8]>, AllocError>
    ensures { IfOk result (λ v. map (λ x. x.now) v.items ≡ slice_split (λ b. b == 10) bytes.now) }
{
    bytes.split(|b| *b == 10).collect(alloc)
}

#[tactic(auto, using(crate::proofs::Cuts::last_is, crate::proofs::Cuts::last_none))]
fn is_last_empty(pieces: &[&[u8]]) -> bool
    ensures { result ≡ ends_empty (map (λ x. x.now) pieces.now) }
{
    if pieces.is_empty() {
        true
    } else {
        pieces[pieces.len() - 1].is_empty()
    }
}

#[tactic(auto, using(crate::proofs::Cuts::take_texts, crate::proofs::Cuts::length_texts))]
fn drop_empty_last(pieces: &mut Vec<&[u8]>)
    ensures { map (λ x. x.now) pieces.new.items ≡ but_empty_last (map (λ x. x.now) pieces.old.items) }
{
    if is_last_empty(pieces.as_slice()) {
        let kept = pieces.len().saturating_sub(1);
        pieces.truncate(kept);
    }
}

/// The lines of a text, in order, each without its LF: the pieces between LFs, but for an empty
/// last one.
#[tactic(auto, unfolding(crate::specs::Text::lines_of))]
pub fn cut_lines(alloc: Global, bytes: &[u8]) -> Result<Vec<&[u8]>, AllocError>
    ensures { IfOk result (λ v. map (λ x. x.now) v.items ≡ lines_of bytes.now) }
{
    let mut pieces = pieces(alloc, bytes)?;
    drop_empty_last(&mut pieces);
    Ok(pieces)
}
