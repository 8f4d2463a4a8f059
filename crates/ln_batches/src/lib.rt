//! Lines in which the messages of many channels wait to leave, and the batches of records that stand before them: one
//! over all channels, saved in one transaction.
#![tactic(auto)]

mod filled;
mod laws;
mod lines;
mod row;

pub use filled::FilledBy;
pub use laws::saved_before_sent;
pub use lines::Lines;
pub use row::Waiting;
