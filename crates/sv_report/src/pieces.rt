//! What the printed lines are made of.
ghost use Rattle.std.specs.Prelude.{◌≡◌, ◌++◌, OnOk, string_bytes};
ghost use Rattle.sv_report.specs.Pieces.{kind_text, area_text, usage_word, what_text, place_text};
ghost use Rattle.sv_report.specs.Pieces.{access_text};

use std::alloc::AllocError;
use sv_mask::Usage;
use sv_model::work::{Access, Area, Kind, Place, What};
use sv_name::usage_text;

pub(crate) fn kind_word(kind: Kind) -> &'static str
    ensures { result.now ≡ kind_text kind }
{
    match kind {
        Kind::Raw => "raw",
        Kind::War => "war",
        Kind::Waw => "waw",
    }
}

#[tactic(auto, unfolding(crate::specs::Pieces::area_text))]
pub(crate) fn push_area(text: &mut String, area: Area) -> Result<(), AllocError>
    ensures { OnOk result (string_bytes text.new ≡ string_bytes text.old ++ area_text area) }
{
    match area {
        Area::Bytes { res, span } => {
            let (start, end) = (span.start, span.end);
            write!(text, "res {res} bytes {start}..{end}")
        }
        Area::Image { res, cells } => {
            let mip = cells.mip;
            let start = u64::from(cells.layer);
            let end = start + u64::from(cells.layers);
            write!(text, "res {res} mip {mip}")?;
            write!(text, " layers {start}..{end}")
        }
    }
}

// The number of a usage is below 43; a greater one has no name.
#[tactic(auto, unfolding(crate::specs::Pieces::usage_word))]
pub(crate) fn push_usage(text: &mut String, usage: Usage) -> Result<(), AllocError>
    ensures { OnOk result (string_bytes text.new ≡ string_bytes text.old ++ usage_word usage) }
{
    if usage.0 < 43 {
        let (access, stage) = usage_text(usage);
        text.push_str(access)?;
        text.push_str("@")?;
        text.push_str(stage)
    } else {
        Ok(())
    }
}

#[tactic(auto, unfolding(crate::specs::Pieces::what_text))]
pub(crate) fn push_what(text: &mut String, what: What) -> Result<(), AllocError>
    ensures { OnOk result (string_bytes text.new ≡ string_bytes text.old ++ what_text what) }
{
    match what {
        What::Use(usage) => push_usage(text, usage),
        What::Transition => text.push_str("layout_transition"),
    }
}

#[tactic(auto, unfolding(crate::specs::Pieces::place_text))]
pub(crate) fn push_place(text: &mut String, place: Place) -> Result<(), AllocError>
    ensures { OnOk result (string_bytes text.new ≡ string_bytes text.old ++ place_text place) }
{
    let (event, batch, slot) = (place.event, place.batch, place.slot);
    let (rec, cmd) = (place.rec, place.cmd);
    write!(text, "{event}.{batch}.{slot}")?;
    write!(text, " rec {rec} cmd {cmd}")
}

#[tactic(auto, unfolding(crate::specs::Pieces::access_text))]
pub(crate) fn push_access(text: &mut String, access: &Access) -> Result<(), AllocError>
    ensures { OnOk result (string_bytes text.new ≡ string_bytes text.old ++ access_text access.now) }
{
    push_what(text, access.what)?;
    text.push_str(" ")?;
    push_place(text, access.place)
}
