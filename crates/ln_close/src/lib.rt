//! The end of a channel that both sides agree to: shutdown, and the fee of the closing transaction (BOLT 2,
//! "Channel Close").
#![tactic(auto)]

mod closing;
mod laws;

pub use closing::{Closing, FeeAnswer, Fees};
pub use laws::closes_by_agreement;
