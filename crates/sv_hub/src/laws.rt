//! Laws of the definitions. Each function does nothing: its contract is the law.
ghost use Rattle.sv_hub.specs.Lives.{HearsWhileItStays, LeavesWithWhatItHeard, ReportsAddUp, RoomLasts};

/// Reports that are heard one after another are heard as one list.
pub fn reports_add_up()
    ensures { ReportsAddUp }
{}

/// Each delivery takes the room of one report at most.
pub fn room_lasts()
    ensures { RoomLasts }
{}

/// From its attach on a listener hears each report that is delivered, once and in order, whoever else comes
/// and goes.
pub fn hears_while_it_stays()
    ensures { HearsWhileItStays }
{}

/// A listener that is handed back has heard what was heard under its id.
pub fn leaves_with_what_it_heard()
    ensures { LeavesWithWhatItHeard }
{}
