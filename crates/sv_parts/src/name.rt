//! Names.
ghost use Rattle.sv_parts.specs.Names as spec;

use crate::table;
use serde_json::Value;
use sv_json::{Found, Part, named, no_text};
use sv_mask::{Access16, Layout, Stage};
use sv_model::line::{Class, Load, SemKind, Sharing, Store};

/// A plain stage.
pub struct PlainStage;

impl Part for PlainStage {
    type Made = Stage;

    ghost form = { spec.plain_stage };

    #[tactic(auto, unfolding(sv_json::specs::Form::word))]
    fn read(value: &Value) -> Found<Stage> {
        match value.as_str() {
            Some(text) => named(sv_name::plain_stage(text), Stage::Host),
            None => no_text(Stage::Host),
        }
    }
}

/// A plain access.
pub struct PlainAccess;

impl Part for PlainAccess {
    type Made = Access16;

    ghost form = { spec.plain_access };

    #[tactic(auto, unfolding(sv_json::specs::Form::word))]
    fn read(value: &Value) -> Found<Access16> {
        match value.as_str() {
            Some(text) => named(sv_name::plain_access(text), Access16::HostRead),
            None => no_text(Access16::HostRead),
        }
    }
}

/// A layout.
pub struct AnyLayout;

impl Part for AnyLayout {
    type Made = Layout;

    ghost form = { spec.layout };

    #[tactic(auto, unfolding(sv_json::specs::Form::word))]
    fn read(value: &Value) -> Found<Layout> {
        match value.as_str() {
            Some(text) => named(sv_name::layout(text), Layout::Undefined),
            None => no_text(Layout::Undefined),
        }
    }
}

/// A layout that an image can have from the start.
pub struct FirstLayout;

impl Part for FirstLayout {
    type Made = Layout;

    ghost form = { spec.first_layout };

    #[tactic(auto, unfolding(sv_json::specs::Form::word))]
    fn read(value: &Value) -> Found<Layout> {
        match value.as_str() {
            Some(text) => named(table::first_layout(text), Layout::Undefined),
            None => no_text(Layout::Undefined),
        }
    }
}

/// A layout that a transition can lead to.
pub struct LaterLayout;

impl Part for LaterLayout {
    type Made = Layout;

    ghost form = { spec.later_layout };

    #[tactic(auto, unfolding(sv_json::specs::Form::word))]
    fn read(value: &Value) -> Found<Layout> {
        match value.as_str() {
            Some(text) => named(table::later_layout(text), Layout::Undefined),
            None => no_text(Layout::Undefined),
        }
    }
}

/// The class of an attachment.
pub struct ClassName;

impl Part for ClassName {
    type Made = Class;

    ghost form = { spec.class };

    #[tactic(auto, unfolding(sv_json::specs::Form::word))]
    fn read(value: &Value) -> Found<Class> {
        match value.as_str() {
            Some(text) => named(table::class(text), Class::Color),
            None => no_text(Class::Color),
        }
    }
}

/// A load operation.
pub struct LoadName;

impl Part for LoadName {
    type Made = Load;

    ghost form = { spec.load };

    #[tactic(auto, unfolding(sv_json::specs::Form::word))]
    fn read(value: &Value) -> Found<Load> {
        match value.as_str() {
            Some(text) => named(table::load(text), Load::Load),
            None => no_text(Load::Load),
        }
    }
}

/// A store operation.
pub struct StoreName;

impl Part for StoreName {
    type Made = Store;

    ghost form = { spec.store };

    #[tactic(auto, unfolding(sv_json::specs::Form::word))]
    fn read(value: &Value) -> Found<Store> {
        match value.as_str() {
            Some(text) => named(table::store(text), Store::Store),
            None => no_text(Store::Store),
        }
    }
}

/// How queue families share a resource.
pub struct SharingName;

impl Part for SharingName {
    type Made = Sharing;

    ghost form = { spec.sharing };

    #[tactic(auto, unfolding(sv_json::specs::Form::word))]
    fn read(value: &Value) -> Found<Sharing> {
        match value.as_str() {
            Some(text) => named(table::sharing(text), Sharing::Exclusive),
            None => no_text(Sharing::Exclusive),
        }
    }
}

/// The kind of a semaphore.
pub struct KindName;

impl Part for KindName {
    type Made = SemKind;

    ghost form = { spec.kind };

    #[tactic(auto, unfolding(sv_json::specs::Form::word))]
    fn read(value: &Value) -> Found<SemKind> {
        match value.as_str() {
            Some(text) => named(table::kind(text), SemKind::Binary),
            None => no_text(SemKind::Binary),
        }
    }
}
