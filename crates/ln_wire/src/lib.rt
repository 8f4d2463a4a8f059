//! What passes between a link and its host in other languages, as bytes: configs, commands, questions, what stands in
//! the line, and where the link stands. Numbers are big-endian.
#![tactic(auto)]

mod codec;
mod commands;
mod events;
mod items;
mod lent;
mod lists;
mod marks;
mod questions;
mod setup;
mod summary;
mod whole;
mod wire;

pub use codec::{
    decode_command, decode_config, decode_item, decode_question, decode_saved, decode_spec,
    decode_summary, decode_view, encode_command, encode_config, encode_item, encode_question,
    encode_saved, encode_spec, encode_summary, encode_view, one_form,
};
pub use items::Item;
pub use lent::{encode_blank_item, encode_event_item, encode_record_item};
pub use summary::{LinkStatus, LinkSummary};
