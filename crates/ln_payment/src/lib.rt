//! The machine of a payment that a node forwards: what the records of its links, and its book, have of one HTLC that
//! came in, and what may become of that (BOLT 2, "Forwarding HTLCs"). Its law stands on no other crate.
#![tactic(auto)]

mod laws;

pub use laws::{one_payment_out, the_book_is_read_back};
