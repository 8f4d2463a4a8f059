//! What outlives a restart: where the record of each channel is stored, and what it has.
#![tactic(auto)]

mod codec;
mod events;
mod header;
mod items;
mod link_record;
mod list;
pub mod lists;
mod memory_store;
mod place;
mod readable;
mod record;
mod record_store;
mod removals;
pub mod stored;
mod updates;
mod views;
mod window;

pub use codec::{decode_record, encode_record, one_record};
pub use link_record::LinkRecord;
pub use list::Listed;
pub use memory_store::MemoryStore;
pub use place::ChainPlace;
pub use readable::is_readable;
pub use record::{
    Agreement, Base, ClosingFees, Commitments, Covered, Events, Flags, Forwards, Header, Items,
    LiveHtlc, Pairs, Progress, Sides, Updates, Window,
};
pub use record_store::RecordStore;
