//! The calls of the library for other languages, by bytes: what `lnlink_c` exports.
#![tactic(auto)]

mod connection;
mod link;
mod summary;

pub use connection::{channel, check_init, init, pong, print, read, shares_chain, written};
pub use link::{
    accept, command, done, exactly, fund, load, look, message, next, open, question, view, worth,
};
pub use summary::summary_of;
