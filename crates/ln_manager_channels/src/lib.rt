//! The links of a node's channels and its book of payments, moved one step after the other: what one call makes of
//! both together (BOLT 2, "Forwarding HTLCs").
#![tactic(auto)]

mod channels;
mod commands;
mod events;
mod given;
mod height;
mod moves;
mod newest;
mod numbers;
mod parts;
mod saved;

pub use channels::Channels;
pub use events::event_count;
pub use given::Given;
pub use newest::Newest;
pub use saved::Saved;
