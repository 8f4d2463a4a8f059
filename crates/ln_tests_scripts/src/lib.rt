//! Tests of scripts, commands and command lines, by their public calls alone: what no line of ln_script_calls can say.
#![tactic(auto)]

mod frames;

pub use frames::ping_frame;

#[cfg(test)]
mod commands;
#[cfg(test)]
mod failing_saves;
#[cfg(test)]
mod hooks;
#[cfg(test)]
mod records;
#[cfg(test)]
mod scripts;
#[cfg(test)]
mod words;
