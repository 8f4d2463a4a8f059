//! Laws of a single link, whatever its peer sends and whatever it is told to do: it is begun as a funder, as a fundee
//! or from its record, by what fits, and told with the rows that its code meets (BOLT 2). And which readable records it
//! can come back from.
#![tactic(auto)]

mod laws;

pub use laws::{
    each_message_can_be_written, no_save_is_damaged, readable_records_tell_logs, toy_keys_are_wide,
};
