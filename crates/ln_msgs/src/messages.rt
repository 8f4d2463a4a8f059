//! The messages of a channel (BOLT 1 and BOLT 2): their types, fields and records.

pub(crate) mod channel;
pub(crate) mod closing;
pub(crate) mod commitments;
pub(crate) mod features;
pub(crate) mod form;
pub(crate) mod item;
pub(crate) mod item_list;
pub(crate) mod message;
pub(crate) mod opening;
pub(crate) mod records;
pub(crate) mod reply;
pub(crate) mod setup;
pub(crate) mod updates;
