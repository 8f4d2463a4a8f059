//! The circuits of a node: of each HTLC that came in, what its channels and its book have of it is a payment of
//! `ln_payment`'s machine, whatever happens to them. The laws are over lists of moments, by the definitions that the
//! handlers of `ln_channel` and `ln_book` are proved to compute; that the moments of a world are such ones is for
//! `ln_world` to prove, which cites these laws. There is no code here.
#![tactic(auto)]

mod laws;

pub use laws::{one_payment_out, what_is_covered_stays, what_was_removed_while_held_goes_nowhere};
