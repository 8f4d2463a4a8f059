//! What a node tells of itself to who watches it: a summary of each channel, and counts of what it has done (BOLT 2).
#![tactic(auto)]

mod counters;
mod htlc;
mod summary;
mod watch;

pub use counters::{Counters, Decided, Tally};
pub use htlc::{HtlcStage, LiveHtlc, LiveHtlcs};
pub use summary::{ChannelState, ChannelSummary, summary_of};
pub use watch::Watch;
