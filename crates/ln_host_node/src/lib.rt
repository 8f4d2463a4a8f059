//! A routing node without threads whose host brings keys, onions, disk and sockets: its calls by bytes, and the items
//! that it hands out one by one.
#![tactic(auto)]

mod items;
mod messages;
mod node;
mod onions;
mod opening;
mod seat;
mod sending;
mod spelling;
mod verdicts;

pub use node::HostNode;
