//! What happens in a channel, and those who are told: stored closures that are called on every event.
#![tactic(auto)]

mod amount;
mod event;
mod hook;
mod serve;
mod table;
mod verdict;

pub use amount::Msat;
pub use event::{ChannelEvent, How, event_of};
pub use hook::{Call, Hook};
pub use serve::{Serve, Table};
pub use table::{HookTable, call_each};
pub use verdict::{FailureCode, Verdict};
