//! What a node's book of forwarded payments says: what was entered, one after the other, and what that leaves (BOLT 2,
//! "Forwarding HTLCs").
#![tactic(auto)]

mod due;
mod entry;
mod held;
mod htlc;
mod ids;
mod indexed;
mod indices;
mod key_index;
mod lists;
mod lost;
mod names;
mod places;
mod slots;
mod tables;

pub use entry::{
    Decided, Entry, Ids, Invoice, KeptState, Out, OutgoingChannel, PendingCommand, Queued, Resumed,
};
pub use held::HeldHtlc;
pub use htlc::{Htlc, IncomingLeg, Key, Offer, OutgoingLeg};
pub use tables::{Tables, is_later};
