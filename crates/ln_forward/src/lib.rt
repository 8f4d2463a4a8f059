//! What the payload of a hop asks for, and whether a payment is forwarded or taken (BOLT 4, "Accepting and
//! Forwarding a Payment"; BOLT 7, "HTLC Fees").
#![tactic(auto)]

mod checks;
mod failure;
mod payload;

pub use checks::{Expected, Incoming, Policy, Route, check_final, check_forward};
pub use failure::Failure;
pub use payload::{Payload, Payment, one_payload, read_payload, write_payload};
