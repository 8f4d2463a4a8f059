//! A routing node without threads: many links and one book of payments, called one call after the other. What it hands
//! out waits in a line for each channel, after batches of records over all channels (BOLT 2, "Forwarding HTLCs").
#![tactic(auto)]

mod batch;
mod manager;
mod posted;
mod turns;

pub use batch::{Batch, SavedRecord};
pub use ln_manager_channels::Saved;
pub use manager::Manager;
pub use posted::Posted;
