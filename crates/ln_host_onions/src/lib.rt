//! Onions that a host opens, for a node that asks for what is in them.
#![tactic(auto)]

mod host_onions;

pub use host_onions::{HostOnions, name_of};
