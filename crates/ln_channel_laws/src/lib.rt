//! The two ends of one channel: laws over every list of their steps, told with the rows that each end's code meets
//! (BOLT 2).
#![tactic(auto)]

mod laws;
mod moves;

pub use laws::{
    a_shutdown_is_answered, bases_are_the_longest, both_agree_at_rest, closed_at_one_fee,
    closing_ends, commands_are_done_exactly, ends_stay_as_set_up, held_was_covered,
    no_add_follows_a_shutdown, no_message_is_refused, no_message_is_refused_where_fees_overlap,
    readiness_agrees_at_rest, signatures_are_over_what_is_covered, steps_are_those_of_a_link,
    who_has_lost_data,
};
pub use moves::{
    close_is_last, each_move_may_be_made, events_are_reported, moves_are_the_machines,
    undecided_events_are_the_machines,
};
