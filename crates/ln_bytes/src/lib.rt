//! Bytes of the Lightning protocol: BigSize and truncated numbers and TLV record streams (BOLT 1),
//! with the numbered faults by which they are refused, lists of signatures, and short channel ids (BOLT 7).
#![tactic(auto)]

mod bigsize;
mod bytes;
mod fault;
mod record;
mod short_id;
mod signatures;
mod tlv;
mod truncated;

pub use bigsize::{bigsize_len, one_spelling, read_bigsize, write_bigsize};
pub use bytes::Bytes;
pub use fault::Fault;
pub use record::Record;
pub use short_id::ShortId;
pub use signatures::Signatures;
pub use tlv::{
    append_tlvs, check_tlvs, one_stream, read_tlvs, tlvs_are_valid, tlvs_len, value_of, write_tlvs,
};
pub use truncated::{one_truncated, read_tu32, read_tu64, write_tu64};
