//! A world of nodes: channels between them, dispatchers that hand the channels' events to hooks, and for each node a
//! book of forwarded payments, whose commands its channels take; moved step by step. What is promised of a payment that
//! passes through a node: payment_laws.rt.
#![tactic(auto)]

mod book_reports;
mod call;
mod conclude;
mod follow;
mod follow_up;
mod laws;
mod machine;
mod node;
mod payment_laws;
mod prepare;
mod step;
mod world;

pub use laws::{
    a_shutdown_is_answered, agreement, bases_are_the_longest, channels_open_as_set,
    closed_at_one_fee, closing_ends, commands_are_done_exactly, commands_are_wide,
    decisions_follow_dispatches, every_end_has_a_record, headline, never_refused,
    never_refused_where_fees_overlap, readiness_agrees_at_rest,
    signatures_are_over_what_is_covered,
};
pub use ln_book_tables::Invoice;
pub use ln_forward::Policy;
pub use ln_world_dispatch::{
    Choice, Dispatcher, End, EndLine, Ending, Epoch, HookSlot, Hooks, Line, Node, Nodes, Open,
    Partners, Serve, Tables, Word,
};
pub use machine::{
    close_is_last, each_move_may_be_made, events_are_reported, moves_are_the_machines,
    undecided_events_are_the_machines,
};
pub use node::NodeBook;
pub use payment_laws::{one_payment_out, what_is_covered_stays};
pub use step::{Act, Step};
pub use world::World;
