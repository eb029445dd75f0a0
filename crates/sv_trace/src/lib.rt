//! Reads the lines of a trace: a text is cut into lines, and each line is refused or taken.
//!
//! - knows one text, and each line of it by itself
//! - definitions: `Text`, `Lines`, `Ops`, `Reading`; `Formed` says what is read
//! - used by `sv_rules`
#![tactic(auto)]

mod call;
mod command;
mod cut;
mod declaration;
mod op;
mod read;
mod render_pass;

pub use cut::cut_lines;
pub use read::read_line;
