//! Tests of running nodes over loopback, by their public calls alone: hooks and workers beside each other, strangers,
//! payments that wait, the demo, what is logged. What lines can say stands in ln_node_calls.
#![tactic(auto)]

mod frames;

pub use frames::ping_frame;

#[cfg(test)]
mod client;
#[cfg(test)]
mod demo;
#[cfg(test)]
mod embedding;
#[cfg(test)]
mod openings;
#[cfg(test)]
mod pair;
#[cfg(test)]
mod tests;
#[cfg(test)]
mod trace;
#[cfg(test)]
mod veil;
