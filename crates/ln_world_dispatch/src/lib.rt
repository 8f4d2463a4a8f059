//! Nodes and the channels between them, moved step by step; at each end of a channel a dispatcher, which hands the
//! end's events to the hooks that were registered there.
#![tactic(auto)]

mod dispatcher;
mod event;
mod hook_slot;
mod hooks;
mod laws;
mod machine;
mod nodes;
mod served;
mod step;
mod world;

pub use dispatcher::{Dispatcher, Epoch};
pub use event::undecided;
pub use hook_slot::HookSlot;
pub use hooks::{Hooks, Tables};
pub use laws::{
    a_shutdown_is_answered, agreement, bases_are_the_longest, channels_open_as_set,
    closed_at_one_fee, closing_ends, commands_are_done_exactly, decisions_follow_dispatches,
    every_end_has_a_record, headline, never_refused, never_refused_where_fees_overlap,
    readiness_agrees_at_rest, signatures_are_over_what_is_covered,
};
pub use ln_hooks::Serve;
pub use ln_world_channels::{
    Act, Choice, End, EndLine, Ending, Line, Node, Open, Partners, RecordLeft, Word,
};
pub use machine::{
    close_is_last, each_move_may_be_made, events_are_reported, moves_are_the_machines,
    undecided_events_are_the_machines,
};
pub use nodes::Nodes;
pub use step::Step;
pub use world::World;
