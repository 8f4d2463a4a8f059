//! Records on a disk: a store of records in a table of a SQL database; and one over a file, for a node, as a type
//! without parameters.
#![tactic(auto)]

mod compared;
mod copies;
mod desk;
mod file_records;
mod rows;
mod shared;
mod sql_store;
mod statements;
mod table;
mod together;
mod transaction;

pub use file_records::FileRecords;
pub use shared::{SharedDatabase, SharedStore};
pub use sql_store::SqliteStore;
