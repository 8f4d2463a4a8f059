//! A payment over three nodes of one process: what `lnlink demo` does.
#![tactic(auto)]

mod payment;
mod play;
mod seen;
mod three;

pub use play::demo;
