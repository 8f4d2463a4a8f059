//! A node in the log of its program: its trace by `log`, and stores whose saves are timed and logged.
//!
//! | What | Target | Level | Text | Keys |
//! |---|---|---|---|---|
//! | A message | [`MESSAGE`] | trace | `took`, `sent` | `channel`, `message` |
//! | A save | [`SAVE`] | debug | `saved` | `channel`, `bytes` |
//! | A refused save | [`SAVE`] | warn | `save refused` | `channel`, `bytes`, `error` |
//! | A lost connection | [`NOTICE`] | info | `connection ended`, `no init` | `channel`, `error` |
//! | A peer that is met | [`NOTICE`] | info | `peer met` | `channel` |
//! | A loaded link | [`NOTICE`] | info | `loaded` | `channel` |
//! | A held payment | [`NOTICE`] | info | `payment held` | `channel`, `event` |
//! | What the end refused | [`NOTICE`] | warn | `refused` | `channel`, `error` |
//! | A halted end | [`NOTICE`] | warn | `halted` | `channel` |
//! | A refused order | [`NOTICE`] | debug | `order refused` | `channel`, `order`, `error` |
//! | Steps that were lost | [`LOST`] | warn | `steps lost` | `count` |
//! | A save of a [`LoggedStore`] | [`STORE`] | debug | `saved` | `channel_id`, `bytes`, `micros` |
//! | One that was refused | [`STORE`] | warn | `save refused` | the same, `error` |
//!
//! Levels are as users of other nodes know them: whole messages at trace, what is stored at debug, what becomes of a
//! channel at info, what asks for a look at warn. Targets begin alike, so a filter may be `info,lnlink::store=debug`. A
//! program that logs the saves of a [`LoggedStore`] may turn those of the trace off: they are the same ones.
//!
//! `channel` is the channel's number in its node, `channel_id` its id (BOLT 2) in hexadecimal. `message` is the text of
//! ln_text on one line. An `error` is told by its number, and there is no such key where there is none.
#![tactic(auto)]

mod hex_id;
mod logged_store;
mod one_line;
mod saves;
mod step_pairs;
mod steps;

pub use logged_store::{LoggedStore, STORE};
pub use step_pairs::StepPairs;
pub use steps::{LOST, MESSAGE, NOTICE, SAVE, log_trace, step_record};
