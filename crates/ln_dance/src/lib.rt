//! The dance of signatures and revocations: each side signs the other's next commitment, and revokes its
//! own last one as it takes a signature (BOLT 2, "Committing Updates So Far" and "Completing the
//! Transition to the Updated State").
#![tactic(auto)]

mod dance;
mod laws;
mod messages;
mod reconnect;
mod resume;

pub use dance::{Dance, LAST_NUMBER, Later, Numbers, Peer};
pub use laws::{revocation_is_learned, signature_is_accepted};
pub use messages::{
    add_message, fail_message, fee_message, fulfil_message, malformed_message,
    update_is_told_as_sent, update_message, update_of,
};
pub use reconnect::{
    dance_keeps_up, reestablish_is_served, revocation_is_sent_again, signature_is_sent_again,
};
pub use resume::{Messages, Resend};
