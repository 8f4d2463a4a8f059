//! The updates of both sides of a channel as whole lists, what of them each commitment covers, and
//! what a commitment is worth (BOLT 2, "Normal Operation").
#![tactic(auto)]

mod balances;
mod base_check;
mod base_laws;
mod compaction;
mod laws;
mod loading;
mod log;
mod mark;
mod opening;
mod outcome;
mod outcomes;
mod plain;
mod record_form;
mod removal_check;
mod removals;
mod standing;
mod update;
mod window;
mod window_laws;

pub use balances::Balances;
pub use base_check::may_be_led_to;
pub use base_laws::{
    a_base_is_led_to, a_record_tells_of_lists, a_record_without_a_base_has_all_updates,
    alike_lists_are_not_told_apart, updates_lead_to_what_may_be_led_to, what_is_told_has_balances,
    what_is_told_of_a_log_restores_it,
};
pub use laws::{
    limits_are_rules, moves_exactly, propose_exactly, shut_exactly, sign_exactly, views_as_sent,
};
pub use ln_keys::{Htlc, Htlcs, Role, View};
pub use loading::Coverage;
pub use log::{Counts, MOST_UPDATES, Pair, Side, UpdateLog};
pub use mark::{Decision, EventRef, Mark, Settlement};
pub use opening::{Limits, MOST_HTLCS, MOST_SATOSHIS, Opening};
pub use outcome::Outcome;
pub use outcomes::{Outcomes, outcome_of};
pub use plain::{
    Sums, add_of, conservation, count_adds, find_add, last_feerate, live_count, plain_view, sums_of,
};
pub use record_form::BaseState;
pub use removals::removed_ids;
pub use standing::{Standing, add_refusal, update_refusal};
pub use update::{Add, ChannelId, Fail, Fee, Fulfil, Malformed, Removal, Update, removal_of};
pub use window_laws::{base_and_window_tell_all, removals_look_at_live_htlcs};
