//! Batches of records, each saved in one transaction.

use ln_bytes::Bytes;
use ln_log::ChannelId;

/// The record of a channel, as its host saves it.
#[derive(Drop)]
pub struct SavedRecord {
    /// The channel's number.
    pub channel: usize,
    /// Its id.
    pub id: ChannelId,
    /// The record.
    pub bytes: Bytes,
}

/// Records over all channels that a host saves in one transaction.
#[derive(Drop)]
pub struct Batch {
    /// Its number, from 1.
    pub number: u64,
    /// The records that have changed since the batch before.
    pub records: Vec<SavedRecord>,
}
