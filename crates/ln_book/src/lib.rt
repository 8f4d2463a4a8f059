//! The book of a node's forwarded payments: what was decided about each HTLC that came in, what was commanded for it,
//! and what has become of it (BOLT 2, "Forwarding HTLCs"); how it is rebuilt after a restart, and what stands between
//! it and the ends of a node's channels.
#![tactic(auto)]

mod book;
mod commands;
mod legs;
mod marks;
mod noted;
mod recovery;
mod switch;

pub use book::Book;
pub use recovery::kept::{Kept, kept_state_of};
pub use recovery::laws::a_record_tells_what_is_read;
pub use recovery::leg::{ChannelSnapshot, Leg};
pub use recovery::rebuild::rebuilt_htlcs;
pub use switch::answers::{answer_to, command_subject, next_id, waits};
pub use switch::handle::BookHandle;
pub use switch::laws::{
    a_refused_offer_fails_back, an_end_takes_payments_where_it_may_offer,
    what_is_lost_is_owed_again, what_is_owed_can_be_taken,
    what_is_refused_for_now_is_handed_out_again, what_was_decided_is_not_decided_again,
    what_was_offered_is_not_offered_again, what_was_removed_is_not_removed_again,
};
pub use switch::saying::Saying;
pub use switch::snapshots::read_end;
pub use switch::uses::{Use, follow, use_of};
