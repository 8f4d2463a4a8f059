//! What something began with and what was entered since, for proofs alone.
#![tactic(auto)]

mod past;

pub use past::Past;
