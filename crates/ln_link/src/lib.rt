//! One link: one end of a channel that saves before it hands out, and comes back from its record.
#![tactic(auto)]

mod laws;
mod link;
mod loading;
mod payload;
mod record;

pub use laws::{lost_connection_is_recorded, saved_is_loaded, store_has_the_record};
pub use link::Link;
pub use ln_channel::{Command, Config, FitConfig, FitSpec, OpenSpec, Output, Points};
pub use record::to_record;
