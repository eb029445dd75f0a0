//! The parts of a barrier's group.
ghost use Rattle.std.specs.Prelude.{◌≡◌, option_to_list};
ghost use Rattle.sv_model.specs.Barriers as spec;
ghost use Rattle.sv_model.specs.Plain.{PartFits};

use sv_expand::{access, first_sync, second_sync};
use sv_mask::{Layout, Usages};
use sv_model::line::{Element, Part};
use sv_model::work::{Access, Area, Dep, Here, Old, Place, Track, Transfer, What};
use sv_range::{Cells, Span};

/// The cells of a part.
pub fn area_of(res: u32, part: Part) -> Area
    requires { PartFits part }
    ensures { result ≡ spec.area_of res part }
{
    match part {
        Part::Bytes { start, end } => Area::Bytes {
            res,
            span: Span { start, end },
        },
        Part::Image {
            mip,
            mips,
            layer,
            layers,
        } => Area::Image {
            res,
            cells: Cells {
                mip: mip as u32,
                mips: mips as u32,
                layer: layer as u32,
                layers: layers as u32,
            },
        },
    }
}

/// The place of a command before its recording is submitted.
pub fn place_of(here: Here) -> Place
    ensures { result ≡ spec.place_of here }
{
    Place {
        event: 0,
        batch: 0,
        slot: 0,
        rec: here.rec,
        cmd: here.cmd,
    }
}

/// The subpass of an instance in which a command stands.
pub fn subpass_of(here: Here) -> Option<(u64, u32)>
    ensures { result ≡ spec.subpass_of here }
{
    match here.subpass {
        Some(subpass) => Some((here.instance, subpass)),
        None => None,
    }
}

/// What a barrier covers: its subpass alone, or all of its queue.
pub fn track_of(here: Here) -> Track
    ensures { result ≡ spec.track_of here }
{
    match here.subpass {
        Some(subpass) => Track::Sub {
            queue: 0,
            instance: here.instance,
            subpass,
        },
        None => Track::Queue(0),
    }
}

/// The dependency of an element from a track to itself. A range limits its access scopes.
pub fn dependency(track: Track, element: Element, range: Option<Area>) -> Dep
    ensures { result
        ≡ spec.dependency track element.src element.src_access track element.dst element.dst_access range }
{
    Dep {
        from: track,
        s1: first_sync(element.src),
        a1: access(element.src, element.src_access),
        to: track,
        s2: second_sync(element.dst),
        a2: access(element.dst, element.dst_access),
        range,
    }
}

/// A transfer where the families differ: a release for the source, an acquire for the destination.
pub fn transfer_for(family: u32, area: Area, families: Option<(u32, u32)>) -> Option<Transfer>
    ensures { result ≡ spec.transfer_for family area families }
{
    match families {
        None => None,
        Some((from, to)) => {
            if from == to {
                return None;
            }
            Some(Transfer {
                release: from == family,
                from,
                to,
                area,
            })
        }
    }
}

/// A release makes nothing visible, an acquire makes nothing available.
pub fn transfer_half(transfer: Option<Transfer>, dep: Dep) -> Dep
    ensures { result ≡ spec.transfer_half transfer dep }
{
    match transfer {
        None => dep,
        Some(transfer) => {
            if transfer.release {
                Dep {
                    a2: Usages(0),
                    ..dep
                }
            } else {
                Dep {
                    a1: Usages(0),
                    ..dep
                }
            }
        }
    }
}

/// The pair of layouts of an element.
pub fn old_of(area: Area, layouts: Option<(Layout, Layout)>) -> Option<Old>
    ensures { option_to_list result ≡ spec.olds_of area layouts }
{
    match layouts {
        None => None,
        Some((was, becomes)) => Some(Old { area, was, becomes }),
    }
}

/// Whether a pair of layouts is a transition: they differ.
fn moves(old: Old) -> bool
    ensures { result ≡ spec.moves old }
{
    !old.was.is_same(old.becomes)
}

/// The pair of layouts where it is a transition. A release leaves it to the acquire.
pub fn moving(transfer: Option<Transfer>, old: Option<Old>) -> Option<Old>
    ensures { option_to_list result ≡ spec.moving transfer (option_to_list old) }
{
    match old {
        None => None,
        Some(old) => {
            if !moves(old) {
                return None;
            }
            match transfer {
                None => Some(old),
                Some(transfer) => { if transfer.release { None } else { Some(old) } }
            }
        }
    }
}

/// In a group with a transition the second scope also holds the pseudo stage `signal`.
pub fn with_transition_stage(moving: Option<Old>, dep: Dep) -> Dep
    ensures { result ≡ spec.with_transition_stage (option_to_list moving) dep }
{
    match moving {
        None => dep,
        Some(_) => Dep {
            s2: dep.s2.with_signal(),
            ..dep
        },
    }
}

/// A transition, at that step and position.
pub fn transition(here: Here, old: Old, pos: u32) -> Access
    ensures { result ≡ record (spec.transition (spec.place_of here) old) { step = here.step; pos = pos } }
{
    Access {
        area: old.area,
        what: What::Transition,
        queue: 0,
        sub: None,
        layout: None,
        place: place_of(here),
        step: here.step,
        pos,
    }
}
