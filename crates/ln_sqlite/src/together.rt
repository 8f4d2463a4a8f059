//! Records of several stores in one transaction.

ghost use Rattle.std.specs.Prelude.{◌≡◌, IsTrue, false};
ghost use Rattle.sqlite.specs.Held.{state};
ghost use Rattle.sqlite.specs.State.{HasCleanDisk};
ghost use Rattle.ln_store.specs.Store.{Records};
ghost use Rattle.ln_sqlite.specs.Holds.{IsTableOf, StopLeaves};
ghost use Rattle.ln_sqlite.specs.Within.{IsWithin, HasCommitted, StopLeavesTheOld};
ghost use Rattle.ln_sqlite.specs.Together.{replaced_all};

use crate::statements::save_row;
use crate::transaction::{begin, commit, roll_back};
use ln_bytes::Bytes;
use sqlite::{Alter, Connection};
use std::sync::Arc;
use std::sync::atomic::AtomicU64;

/// A record that waits to be written, and where its store looks for the answer.
#[derive(Drop)]
pub(crate) struct Job {
    pub(crate) id: [u8; 32],
    pub(crate) bytes: Bytes,
    pub(crate) answer: Arc<AtomicU64>,
}

/// Replaces the row of each within a transaction. Whether all are.
fn put_all<S: Alter>(connection: &mut Connection<S>, jobs: &[Job]) -> bool
    ensures puts_all { HasCleanDisk (state S.Store connection.new) → IsTrue result → (before records : Records)
        → IsWithin (state S.Store connection.old) before records
        → IsWithin (state S.Store connection.new) before (replaced_all records jobs.now) }
    ensures leaves_the_last { HasCleanDisk (state S.Store connection.new)
        → IsTrue (state S.Store connection.new).is_open → result ≡ false → (before records : Records)
        → IsWithin (state S.Store connection.old) before records
        → HasCommitted (state S.Store connection.new) before }
    ensures leaves_the_old_at_a_stop { HasCleanDisk (state S.Store connection.new) → (before records : Records)
        → IsWithin (state S.Store connection.old) before records
        → StopLeavesTheOld (state S.Store connection.old) (state S.Store connection.new) }
    ensures was_clean { HasCleanDisk (state S.Store connection.new) → HasCleanDisk (state S.Store connection.old) }
{
    for job in jobs.iter() {
        match save_row(connection, job.id.as_slice(), job.bytes.as_slice()) {
            Ok(_) => {}
            Err(_) => return false,
        }
    }
    true
}

/// Replaces the row of each, and commits. Whether it has.
fn put_and_commit<S: Alter>(connection: &mut Connection<S>, jobs: &[Job]) -> bool
    ensures commits { HasCleanDisk (state S.Store connection.new) → IsTrue result → (before records : Records)
        → IsWithin (state S.Store connection.old) before records
        → IsTableOf (state S.Store connection.new) (replaced_all records jobs.now) }
    ensures leaves_the_last { HasCleanDisk (state S.Store connection.new)
        → IsTrue (state S.Store connection.new).is_open → result ≡ false → (before records : Records)
        → IsWithin (state S.Store connection.old) before records
        → HasCommitted (state S.Store connection.new) before }
    ensures leaves_one_at_a_stop { HasCleanDisk (state S.Store connection.new) → (before records : Records)
        → IsWithin (state S.Store connection.old) before records → StopLeaves (state S.Store connection.old)
        (state S.Store connection.new) (replaced_all records jobs.now) }
    ensures was_clean { HasCleanDisk (state S.Store connection.new) → HasCleanDisk (state S.Store connection.old) }
{
    if !put_all(connection, jobs) {
        return false;
    }
    match commit(connection) {
        Ok(_) => true,
        Err(_) => false,
    }
}

/// Replaces the row of each, and commits; or goes back to the last commit. Whether it has committed.
fn finish<S: Alter>(connection: &mut Connection<S>, jobs: &[Job]) -> bool
    ensures commits { HasCleanDisk (state S.Store connection.new) → IsTrue result → (before records : Records)
        → IsWithin (state S.Store connection.old) before records
        → IsTableOf (state S.Store connection.new) (replaced_all records jobs.now) }
    ensures goes_back { HasCleanDisk (state S.Store connection.new)
        → IsTrue (state S.Store connection.new).is_open → result ≡ false → (before records : Records)
        → IsWithin (state S.Store connection.old) before records
        → IsTableOf (state S.Store connection.new) before }
    ensures leaves_one_at_a_stop { HasCleanDisk (state S.Store connection.new) → (before records : Records)
        → IsWithin (state S.Store connection.old) before records → StopLeaves (state S.Store connection.old)
        (state S.Store connection.new) (replaced_all records jobs.now) }
    ensures was_clean { HasCleanDisk (state S.Store connection.new) → HasCleanDisk (state S.Store connection.old) }
{
    if put_and_commit(connection, jobs) {
        return true;
    }
    let _ = roll_back(connection);
    false
}

/// Replaces the row of each with one commit, or of none. Whether it has.
pub(crate) fn write_all<S: Alter>(connection: &mut Connection<S>, jobs: &[Job]) -> bool
    ensures replaces_all { HasCleanDisk (state S.Store connection.new) → IsTrue result → (records : Records)
        → IsTableOf (state S.Store connection.old) records
        → IsTableOf (state S.Store connection.new) (replaced_all records jobs.now) }
    ensures leaves_the_table { HasCleanDisk (state S.Store connection.new)
        → IsTrue (state S.Store connection.new).is_open → result ≡ false → (records : Records)
        → IsTableOf (state S.Store connection.old) records
        → IsTableOf (state S.Store connection.new) records }
    ensures leaves_all_or_none_at_a_stop { HasCleanDisk (state S.Store connection.new) → (records : Records)
        → IsTableOf (state S.Store connection.old) records → StopLeaves (state S.Store connection.old)
        (state S.Store connection.new) (replaced_all records jobs.now) }
{
    match begin(connection) {
        Ok(_) => finish(connection, jobs),
        Err(_) => false,
    }
}
