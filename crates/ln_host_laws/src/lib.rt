//! A link whose host answers one question before a message, and fills in blanks after it, does what a link with all
//! keys does.
#![tactic(auto)]

mod laws;

pub use laws::{
    blanks_are_of_the_saved_link, calls_are_as_by_the_keys, commands_are_as_by_the_keys,
    connections_are_as_by_the_keys, keys_tell_right, messages_are_as_by_the_keys,
    new_channels_are_asked_about, only_what_is_asked_decides,
};
