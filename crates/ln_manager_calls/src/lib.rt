//! What holds of a node's channels over every list of their calls, saved batches and loads: these are steps and loads
//! of a manager, of which laws hold. There is no code here.
#![tactic(auto)]

mod laws;

pub use laws::{lives_go_on, one_payment_out, what_is_covered_stays};
