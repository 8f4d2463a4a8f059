//! The statements that begin and end a transaction over the table.

ghost use Rattle.std.specs.Prelude.{◌≡◌, IsTrue, OnOk, OnErr};
ghost use Rattle.sqlite.specs.Held.{state};
ghost use Rattle.sqlite.specs.State.{HasCleanDisk};
ghost use Rattle.ln_store.specs.Store.{Records};
ghost use Rattle.ln_sqlite.specs.Holds.{IsTableOf, StopLeaves};
ghost use Rattle.ln_sqlite.specs.Within.{IsWithin, HasCommitted, StopLeavesTheOld};

use sqlite::{Alter, Connection, Error};

pub(crate) fn begin<S: Alter>(connection: &mut Connection<S>) -> Result<usize, Error>
    ensures begins { HasCleanDisk (state S.Store connection.new) → OnOk result ((records : Records)
        → IsTableOf (state S.Store connection.old) records
        → IsWithin (state S.Store connection.new) records records) }
    ensures leaves_the_table { HasCleanDisk (state S.Store connection.new)
        → IsTrue (state S.Store connection.new).is_open
        → OnErr result ((records : Records) → IsTableOf (state S.Store connection.old) records
        → IsTableOf (state S.Store connection.new) records) }
    ensures leaves_the_old_at_a_stop { HasCleanDisk (state S.Store connection.new)
        → StopLeavesTheOld (state S.Store connection.old) (state S.Store connection.new) }
    ensures was_clean { HasCleanDisk (state S.Store connection.new) → HasCleanDisk (state S.Store connection.old) }
{
    connection.execute("BEGIN", &[])
}

/// Where it answers Ok, what the transaction has made is committed.
pub(crate) fn commit<S: Alter>(connection: &mut Connection<S>) -> Result<usize, Error>
    ensures commits { HasCleanDisk (state S.Store connection.new) → OnOk result ((before records : Records)
        → IsWithin (state S.Store connection.old) before records
        → IsTableOf (state S.Store connection.new) records) }
    ensures leaves_the_last { HasCleanDisk (state S.Store connection.new)
        → IsTrue (state S.Store connection.new).is_open → OnErr result ((before records : Records)
        → IsWithin (state S.Store connection.old) before records
        → HasCommitted (state S.Store connection.new) before) }
    ensures leaves_one_at_a_stop { HasCleanDisk (state S.Store connection.new) → (before records : Records)
        → IsWithin (state S.Store connection.old) before records
        → StopLeaves (state S.Store connection.old) (state S.Store connection.new) records }
    ensures was_clean { HasCleanDisk (state S.Store connection.new) → HasCleanDisk (state S.Store connection.old) }
{
    connection.execute("COMMIT", &[])
}

/// Whatever it answers, the last commit is there again.
pub(crate) fn roll_back<S: Alter>(connection: &mut Connection<S>) -> Result<usize, Error>
    ensures goes_back { HasCleanDisk (state S.Store connection.new)
        → IsTrue (state S.Store connection.new).is_open → (before : Records)
        → HasCommitted (state S.Store connection.old) before
        → IsTableOf (state S.Store connection.new) before }
    ensures leaves_the_old_at_a_stop { HasCleanDisk (state S.Store connection.new)
        → StopLeavesTheOld (state S.Store connection.old) (state S.Store connection.new) }
    ensures was_open { HasCleanDisk (state S.Store connection.new) → IsTrue (state S.Store connection.new).is_open
        → IsTrue (state S.Store connection.old).is_open }
    ensures was_clean { HasCleanDisk (state S.Store connection.new) → HasCleanDisk (state S.Store connection.old) }
{
    connection.execute("ROLLBACK", &[])
}
