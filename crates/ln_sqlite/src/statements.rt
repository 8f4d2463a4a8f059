//! The statements of a store, each a text of its own and a call of its own.

ghost use Rattle.std.specs.Prelude.{◌≡◌, IsTrue, IfOk, OnOk, OnErr};
ghost use Rattle.std.specs.FinMap as map;
ghost use Rattle.sqlite.specs.Held.{state};
ghost use Rattle.sqlite.specs.State.{HasCleanDisk};
ghost use Rattle.ln_store.specs.Store.{Records};
ghost use Rattle.ln_sqlite.specs.Table.{schema, none};
ghost use Rattle.ln_sqlite.specs.Holds.{IsTableOf, StopLeaves};
ghost use Rattle.ln_sqlite.specs.Within.{IsWithin, HasCommitted, StopLeavesTheOld};
ghost use Rattle.ln_sqlite.specs.Reading.{AreShown};
ghost use Rattle.ln_sqlite.specs.Shown.{AreBodies, AreIdsOf};
ghost use Rattle.ln_sqlite.specs.Begins.{IsSettled, Stays};

use crate::compared::shows;
use sqlite::types::ValueRef;
use sqlite::{Alter, Connection, Error, Row};

/// One upsert by id. Where it answers Ok, the row is committed, or is so with the transaction that is under way.
pub(crate) fn save_row<S: Alter>(
    connection: &mut Connection<S>,
    id: &[u8],
    bytes: &[u8],
) -> Result<usize, Error>
    ensures replaces_the_row { HasCleanDisk (state S.Store connection.new) → OnOk result ((records : Records)
        → IsTableOf (state S.Store connection.old) records
        → IsTableOf (state S.Store connection.new) (map.insert records id.now bytes.now)) }
    ensures leaves_the_table { HasCleanDisk (state S.Store connection.new)
        → IsTrue (state S.Store connection.new).is_open
        → OnErr result ((records : Records) → IsTableOf (state S.Store connection.old) records
        → IsTableOf (state S.Store connection.new) records) }
    ensures leaves_one_at_a_stop { HasCleanDisk (state S.Store connection.new) → (records : Records)
        → IsTableOf (state S.Store connection.old) records
        → StopLeaves (state S.Store connection.old) (state S.Store connection.new)
        (map.insert records id.now bytes.now) }
    ensures puts_within { HasCleanDisk (state S.Store connection.new) → OnOk result ((before records : Records)
        → IsWithin (state S.Store connection.old) before records
        → IsWithin (state S.Store connection.new) before (map.insert records id.now bytes.now)) }
    ensures leaves_the_last_within { HasCleanDisk (state S.Store connection.new)
        → IsTrue (state S.Store connection.new).is_open → OnErr result ((before records : Records)
        → IsWithin (state S.Store connection.old) before records
        → HasCommitted (state S.Store connection.new) before) }
    ensures leaves_the_old_at_a_stop_within { HasCleanDisk (state S.Store connection.new)
        → (before records : Records) → IsWithin (state S.Store connection.old) before records
        → StopLeavesTheOld (state S.Store connection.old) (state S.Store connection.new) }
    ensures was_clean { HasCleanDisk (state S.Store connection.new) → HasCleanDisk (state S.Store connection.old) }
{
    connection.execute(
        "INSERT OR REPLACE INTO records(id, body) VALUES (?1, ?2)",
        &[ValueRef::Blob(id), ValueRef::Blob(bytes)],
    )
}

pub(crate) fn make_table<S: Alter>(connection: &mut Connection<S>) -> Result<usize, Error>
    ensures makes_the_table { HasCleanDisk (state S.Store connection.new) → OnOk result (
        (state S.Store connection.old).now.schema ≡ none → IsSettled (state S.Store connection.old)
        → IsTableOf (state S.Store connection.new) map.empty) }
    ensures changes_nothing_where_refused { HasCleanDisk (state S.Store connection.new)
        → IsTrue (state S.Store connection.new).is_open
        → OnErr result (Stays (state S.Store connection.old) (state S.Store connection.new)) }
    ensures was_open { HasCleanDisk (state S.Store connection.new) → IsTrue (state S.Store connection.new).is_open
        → (state S.Store connection.old).now.schema ≡ none → IsTrue (state S.Store connection.old).is_open }
    ensures was_clean { HasCleanDisk (state S.Store connection.new) → HasCleanDisk (state S.Store connection.old) }
{
    connection.execute(
        "CREATE TABLE records(id BLOB PRIMARY KEY, body BLOB NOT NULL)",
        &[],
    )
}

/// The body in each row with this id.
pub(crate) fn load_rows<S: Alter>(
    connection: &mut Connection<S>,
    id: &[u8],
) -> Result<Vec<Row>, Error>
    ensures shows_each_body { HasCleanDisk (state S.Store connection.new) → IfOk result (λ rows.
        (state S.Store connection.old).now.schema ≡ schema
        → AreBodies ((state S.Store connection.old).now.trees 0) id.now rows.items) }
    ensures leaves_the_table { HasCleanDisk (state S.Store connection.new)
        → IsTrue (state S.Store connection.new).is_open
        → (records : Records) → IsTableOf (state S.Store connection.old) records
        → IsTableOf (state S.Store connection.new) records }
{
    connection.query_all(
        "SELECT body FROM records WHERE id = ?1",
        &[ValueRef::Blob(id)],
    )
}

/// Whether the table has these ids, in their order, and no other. The rows are read one at a time.
pub(crate) fn has_ids<S: Alter>(
    connection: &mut Connection<S>,
    ids: &[[u8; 32]],
) -> Result<bool, Error>
    ensures has_these { HasCleanDisk (state S.Store connection.new) → IfOk result (λ has. IsTrue has
        → (state S.Store connection.old).now.schema ≡ schema
        → AreIdsOf ((state S.Store connection.old).now.trees 0) ids.now) }
    ensures leaves_the_table { HasCleanDisk (state S.Store connection.new)
        → IsTrue (state S.Store connection.new).is_open
        → (records : Records) → IsTableOf (state S.Store connection.old) records
        → IsTableOf (state S.Store connection.new) records }
{
    let mut rows = connection.query("SELECT id FROM records ORDER BY id", &[])?;
    'rows: for at in 0..ids.len() {
        rows.advance()?;
        let Some(row) = rows.get() else {
            return Ok(false);
        };
        if !shows(row, ids[at].as_slice()) {
            return Ok(false);
        }
    }
    rows.advance()?;
    match rows.get() {
        Some(_) => Ok(false),
        None => Ok(true),
    }
}

/// Each row of the table, with its id and its body.
pub(crate) fn all_rows<S: Alter>(connection: &mut Connection<S>) -> Result<Vec<Row>, Error>
    ensures shows_each_row { HasCleanDisk (state S.Store connection.new) → IfOk result (λ rows.
        (state S.Store connection.old).now.schema ≡ schema
        → AreShown ((state S.Store connection.old).now.trees 0) rows.items) }
    ensures changes_nothing { HasCleanDisk (state S.Store connection.new)
        → IsTrue (state S.Store connection.new).is_open → (state S.Store connection.old).now.schema ≡ schema
        → Stays (state S.Store connection.old) (state S.Store connection.new) }
    ensures was_open { HasCleanDisk (state S.Store connection.new) → IsTrue (state S.Store connection.new).is_open
        → IsTrue (state S.Store connection.old).is_open }
    ensures was_clean { HasCleanDisk (state S.Store connection.new) → HasCleanDisk (state S.Store connection.old) }
{
    connection.query_all("SELECT id, body FROM records", &[])
}
