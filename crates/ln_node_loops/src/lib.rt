//! The loops of a running node: what a connection's reader, a channel's worker and its dispatcher do with what they
//! take, turn by turn (BOLT 1 and 2). Threads and sockets are the caller's.
#![tactic(auto)]

mod books;
mod dispatch;
mod end;
mod features;
mod item;
mod kind;
mod laws;
mod noted;
mod notice;
mod orders;
mod reader;
mod reports;
mod rounds;
mod saved;
mod signing;
mod task;
mod turn;
mod wire;
mod worker;

pub use books::{Books, ReadsEnds};
pub use dispatch::dispatch_loop;
pub use end::End;
pub use features::{PeerFeatures, offers};
pub use item::Item;
pub use kind::Kind;
pub use laws::{
    a_load_keeps_pending_events, a_signature_is_owed_where_sign_is_done, every_event_is_put,
    every_order_is_replied_to, hooks_follow, nothing_is_written_after_a_loss,
    the_book_alone_removes_and_forwards,
};
pub use ln_hooks::Table;
pub use noted::Noted;
pub use notice::Notice;
pub use orders::Orders;
pub use reader::{put, reader_loop};
pub use rounds::{WorkerLoop, worker_loop};
pub use saved::SavedLink;
pub use task::Task;
pub use turn::{Obeyed, worker_turn};
pub use wire::{Closes, Wire};
pub use worker::{Phase, Turned, Worker};
