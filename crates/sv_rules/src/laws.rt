//! Laws of the rules. Each function does nothing: its contract is the law.
ghost use Rattle.sv_rules.specs.Laws.{EachLineKeepsLaw, EndIsLawful, NothingIsLawful};
ghost use Rattle.sv_rules.specs.Laws.{LinesAreLawful, TextsAreLawful, TracesAreLawful};

/// A line that is not refused is lawful in the trace of the lines before it.
pub fn lines_are_lawful()
    ensures { LinesAreLawful }
{}

/// The trace of no lines is lawful so far.
pub fn nothing_is_lawful()
    ensures { NothingIsLawful }
{}

/// After a line that is not refused the trace is lawful so far, where it was before.
pub fn each_line_keeps_law()
    ensures { EachLineKeepsLaw }
{}

/// A trace that is lawful so far and in which no recording is open is lawful.
pub fn end_is_lawful()
    ensures { EndIsLawful }
{}

/// Where no line is refused and no recording is open at the end, the trace that the lines make is lawful.
pub fn traces_are_lawful()
    ensures { TracesAreLawful }
{}

/// The trace of a text that is not refused is lawful.
pub fn texts_are_lawful()
    ensures { TextsAreLawful }
{}
