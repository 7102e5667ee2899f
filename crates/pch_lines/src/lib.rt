//! The words of a command line as commands, and the lines that the program prints.
//!
//! `words` finds the command that words have the form of; `specs/Words` has the forms, and
//! `specs/Files` which files each command loads and saves. `session_words` finds the session that words
//! run, by `specs/Sessions`. The other files make one line each from an error, a verdict or a refusal;
//! `specs/FaultLines`, `specs/ScriptLines`, `specs/RefusalLines`, `specs/ProduceLines` and `specs/DemoLines`
//! have the same lines as lists of bytes.
#![tactic(auto)]

mod bundle_lines;
mod command;
mod demo_lines;
mod design_lines;
mod formula_lines;
mod line;
mod produce_lines;
mod refusal_lines;
mod route_lines;
mod script_lines;
mod session_words;
mod words;

pub use bundle_lines::{bundle_line, config_line, miter_error_line};
pub use command::{Command, NamedFile};
pub use demo_lines::demo_text;
pub use design_lines::spec_line;
pub use formula_lines::{cnf_line, trace_line};
pub use line::Line;
pub use produce_lines::{differs_line, interface_line, spent_line};
pub use refusal_lines::{refusal_line, verdict_line};
pub use route_lines::unroutable_line;
pub use script_lines::script_line;
pub use session_words::{SessionWords, session_of};
pub use words::command_of;
