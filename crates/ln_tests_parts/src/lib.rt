//! Tests of a channel, and of the crates that it stands on, by their public calls alone.
#![tactic(auto)]

mod narrow;
mod place;

pub use narrow::Narrow;
pub use place::put;

#[cfg(test)]
mod bytes;
#[cfg(test)]
mod close;
#[cfg(test)]
mod dance;
#[cfg(test)]
mod forward;
#[cfg(test)]
mod greatest;
#[cfg(test)]
mod hooks;
#[cfg(test)]
mod keys;
#[cfg(test)]
mod loading;
#[cfg(test)]
mod log;
#[cfg(test)]
mod messages;
#[cfg(test)]
mod pings;
#[cfg(test)]
mod record;
#[cfg(test)]
mod relay;
#[cfg(test)]
mod store;
#[cfg(test)]
mod testing;
#[cfg(test)]
mod whole_fields;
