//! Tests of records in databases: a file that fails at each call, what a stop leaves then, and databases that a store
//! isn't made over; of many records and a great one; and of links over stores: a save that fails, in memory and in a
//! database, and files that are opened again. They stand apart so that nobody waits for them.
#![tactic(auto)]

mod same;
mod samples;

pub use same::is_same;
pub use samples::{Sample, has_all, save_all};

#[cfg(test)]
mod database;
#[cfg(test)]
mod failing_saves;
#[cfg(test)]
mod players;
#[cfg(test)]
mod reopened;
#[cfg(test)]
mod shared;
#[cfg(test)]
mod sizes;
#[cfg(test)]
mod stops;
#[cfg(test)]
mod tables;
