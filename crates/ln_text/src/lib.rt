//! Messages as text, for whoever logs or looks at them.
#![tactic(auto)]

mod message;

pub use message::{message_text, text_of_known};
