//! The words of the command line: what they ask for.
#![tactic(auto)]

mod asked;
mod choosing;

pub use asked::{Asked, Unasked};
pub use choosing::choose;
