//! Laws of the definitions. Each function does nothing: its contract is the law.
ghost use Rattle.sv_model.specs.Composition.{ChainsCompose, OrderIsChain};
ghost use Rattle.sv_model.specs.Laws.{FlowGrows, LaterEventsAdd, LawfulAttachmentsFit, LawfulIsPlain};
ghost use Rattle.sv_model.specs.Laws.{LawfulPassIsSmall, LawfulViewsFit, LoweringGrows, SettlingEnds};
ghost use Rattle.sv_model.specs.Laws.{WorkGrows};
ghost use Rattle.sv_model.specs.ReplyLaws.{NotesGrow, RepliesStay};
ghost use Rattle.sv_model.specs.Silent.{SilentStepsHaveNoNotes};
ghost use Rattle.sv_model.specs.Standing.{SettledIsReached, StandingGrows};

/// One more processed item adds its steps, numbered from the number of steps on.
pub fn work_grows()
    ensures { WorkGrows }
{}

/// One more command of a recording adds its steps, numbered from the number of steps on.
pub fn lowering_grows()
    ensures { LoweringGrows }
{}

/// Items are taken until none is enabled.
pub fn settling_ends()
    ensures { SettlingEnds }
{}

/// In a lawful trace each command that begins, goes on in and ends no render scope has short lists
/// and areas that fit, which is all that its lowering asks for.
pub fn lawful_is_plain()
    ensures { LawfulIsPlain }
{}

/// In a lawful trace the mips and layers of attachments are small numbers.
pub fn lawful_attachments_fit()
    ensures { LawfulAttachmentsFit }
{}

/// In a lawful trace the mips and layers of views are small numbers.
pub fn lawful_views_fit()
    ensures { LawfulViewsFit }
{}

/// In a lawful trace a pass has at most 16 attachments and 32 subpasses.
pub fn lawful_pass_is_small()
    ensures { LawfulPassIsSmall }
{}

/// One more event settles what the flow of the events before it came to.
pub fn flow_grows()
    ensures { FlowGrows }
{}

/// One more event adds steps that it releases to the work, and changes none before them.
pub fn later_events_add()
    ensures { LaterEventsAdd }
{}

/// A chain to a write and a chain from it give a chain past it, on one cell. The write is a usage, or a
/// transition whose group has one dependency.
pub fn chains_compose()
    ensures { ChainsCompose }
{}

/// In a trace without render scopes an access is ordered before another exactly where a chain leads
/// from it to the other.
pub fn order_is_chain()
    ensures { OrderIsChain }
{}

/// One more event has the notes of the steps that it adds, and changes those of no event before it.
pub fn notes_grow()
    ensures { NotesGrow }
{}

/// One more event leaves the replies to those before it.
pub fn replies_stay()
    ensures { RepliesStay }
{}

/// One more processed item adds its steps, and what it leaves, to what stood before it.
pub fn standing_grows()
    ensures { StandingGrows }
{}

/// Where items were taken until none is enabled, that is what settling comes to.
pub fn settled_is_reached()
    ensures { SettledIsReached }
{}

/// Steps of one queue family without layouts give no notes.
pub fn silent_steps_have_no_notes()
    ensures { SilentStepsHaveNoNotes }
{}
