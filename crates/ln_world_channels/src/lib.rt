//! Nodes and the channels between them, moved step by step: each end of a channel is a link of its own, which saves
//! what each call makes of it, and what it sends is in flight to the other end (BOLT 2).
#![tactic(auto)]

mod answer;
mod both;
mod channel;
mod channels;
mod laws;
mod line;
mod machine;
mod report;
mod saved_link;
mod settings;
mod step;
mod world;

pub use both::SimEnd;
pub use channel::{WorldChannel, open_channel};
pub use laws::{
    a_shutdown_is_answered, agreement, bases_are_the_longest, channels_open_as_set,
    closed_at_one_fee, closing_ends, commands_are_done_exactly, every_end_has_a_record, headline,
    never_refused, never_refused_where_fees_overlap, no_add_follows_a_shutdown,
    readiness_agrees_at_rest, signatures_are_over_what_is_covered,
};
pub use line::{Choice, EndLine, Ending, Line, Word};
pub use machine::{
    close_is_last, each_move_may_be_made, events_are_reported, moves_are_the_machines,
    undecided_events_are_the_machines,
};
pub use settings::{Setting, Settings, channel_id_of, may_bring};
pub use step::{Act, End, Node, Open, Partners, RecordLeft, Step};
pub use world::World;
