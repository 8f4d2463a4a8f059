//! The numbers by which messages, commands, scripts and records are refused.
#![tactic(auto)]

mod lost_data;
mod peer_rule;
mod refusal;

pub use lost_data::LostData;
pub use peer_rule::PeerRule;
pub use refusal::Refusal;
