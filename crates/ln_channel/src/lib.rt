//! One end of a channel from its opening to its close, as a link that nothing saves: what each message of the peer and
//! each command makes of it, and what it hands out (BOLT 2). The link that saves is ln_link's.
#![tactic(auto)]

mod asking;
mod base;
mod channel;
mod command;
mod commands;
mod config;
mod deep;
mod handle;
mod ledger;
mod machine;
mod opening;
mod output;
mod past;
mod pending;
mod record;
mod resume;
mod stage;
mod summary;
mod taking;
mod unusual;

pub use channel::{Channel, Readiness};
pub use command::Command;
pub use config::{Config, FitConfig, FitSpec, OpenSpec, Points};
pub use ledger::EventLedger;
pub use machine::{ChannelMachine, ConnectionState};
pub use opening::{Terms, opening_is_agreed};
pub use output::Output;
pub use stage::named;
pub use summary::{ChannelStatus, Summary};
pub use unusual::Unusual;
