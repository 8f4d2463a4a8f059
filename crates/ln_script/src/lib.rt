//! Texts: scripts, each line one step of nodes and channels or a few; a report of what they did; and the commands of
//! the program, which read and write them.
#![tactic(auto)]

mod bad_line;
mod command;
mod flaw;
mod flaw_in;
mod hook;
mod hop;
mod keys;
mod laws;
mod line;
mod onion;
mod print;
mod program;
mod reading;
mod report;
mod running;
mod step;
mod want;
mod wants;
mod word;
mod word_text;

pub use bad_line::BadLine;
pub use flaw::Flaw;
pub use hook::HookLine;
pub use laws::{
    each_hook_is_registered, first_bad_line, scripts_keep_the_promises, steps_are_wide,
};
pub use print::print_all;
pub use program::choice::Choice;
pub use program::commands::perform;
pub use program::program_error::ProgramError;
pub use program::text::decode_text;
pub use reading::{hook_lines, read_script};
pub use report::print_report;
pub use running::report_script;
pub use want::Want;
pub use word_text::WordText;
