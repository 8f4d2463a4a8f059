//! What holds of the links of a node, and of its book of payments, over every list of calls, whatever their peers send.
//! There is no code here.
#![tactic(auto)]

mod laws;

pub use laws::{ends_stay_fit, one_payment_out, what_is_covered_stays};
