//! A store over a database.

ghost use Rattle.std.specs.Prelude.{◌≡◌, IsTrue, IfOk, IfErr, Err, false};
ghost use Rattle.std.specs.FinMap as map;
ghost use Rattle.sqlite.specs.Held.{state};
ghost use Rattle.sqlite.specs.State.{HasCleanDisk};
ghost use Rattle.ln_msgs.specs.Pings.Counted.{HasRisen};
ghost use Rattle.ln_sqlite.specs.Table.{none};
ghost use Rattle.ln_sqlite.specs.Holds.{IsTableOf};
ghost use Rattle.ln_sqlite.specs.Begins.{BeginsWith, MayMakeTable, HasRecordsAlone, IsOther, IsReady, IsAsBefore};

use crate::compared::is_copy;
use crate::copies::Copies;
use crate::rows::read_copies;
use crate::shared::SharedDatabase;
use crate::statements::{has_ids, load_rows, make_table, save_row};
use crate::table::{is_empty, is_table_of_records};
use ln_bytes::Bytes;
use ln_refusals::Refusal;
use ln_store::RecordStore;
use sqlite::{Alter, Connection};
use std::alloc::Global;

/// Records in the table `records(id BLOB PRIMARY KEY, body BLOB NOT NULL)` of a database, which has nothing else.
#[derive(Drop)]
pub struct SqliteStore<S: Alter> {
    connection: Connection<S>,
    copies: Copies,
    pub(crate) failures: u64,
}

/// One failure more, or as many as can be counted.
pub(crate) fn counted(failures: &mut u64) -> Refusal
    ensures is_61 { result ≡ Refusal.Store }
    ensures is_counted { HasRisen failures.old failures.new }
{
    *failures = failures.saturating_add(1);
    Refusal::Store
}

/// Makes the table where the database has nothing. Whether it has that then, and nothing else.
fn has_the_table<S: Alter>(connection: &mut Connection<S>) -> bool
    ensures has_the_table { HasCleanDisk (state S.Store connection.new)
        → IsTrue (state S.Store connection.new).is_open → IsTrue result
        → IsReady (state S.Store connection.old) (state S.Store connection.new) }
    ensures changes_nothing_where_refused { HasCleanDisk (state S.Store connection.new)
        → IsTrue (state S.Store connection.new).is_open → result ≡ false
        → IsAsBefore (state S.Store connection.old) (state S.Store connection.new) }
    ensures refuses_another_database { IsOther (state S.Store connection.old)
        → (result ≡ false) × (connection.new ≡ connection.old) }
{
    if !connection.is_autocommit() {
        return false;
    }
    if is_empty(connection.schema()) {
        return make_table(connection).is_ok();
    }
    is_table_of_records(connection.schema())
}

/// Makes the table where the database has nothing, and reads each record once.
fn begin<S: Alter>(alloc: Global, connection: &mut Connection<S>) -> Result<Copies, Refusal>
    ensures begins_with_the_table { HasCleanDisk (state S.Store connection.new)
        → IsTrue (state S.Store connection.new).is_open
        → IfOk result (BeginsWith (state S.Store connection.new)) }
    ensures begins_empty_where_it_makes_the_table { HasCleanDisk (state S.Store connection.new)
        → IsTrue (state S.Store connection.new).is_open → (state S.Store connection.old).now.schema ≡ none
        → IfOk result (λ copies. (copies ≡ map.empty) × IsTableOf (state S.Store connection.new) map.empty) }
    ensures changes_no_more { HasCleanDisk (state S.Store connection.new)
        → IsTrue (state S.Store connection.new).is_open
        → MayMakeTable (state S.Store connection.old) (state S.Store connection.new) }
    ensures takes_memory_for_records_alone { HasCleanDisk (state S.Store connection.new)
        → IsTrue (state S.Store connection.new).is_open
        → IfErr result (λ e. e ≡ Refusal.Memory → HasRecordsAlone (state S.Store connection.new)) }
    ensures refuses_another_database { IsOther (state S.Store connection.old)
        → (result ≡ Err Refusal.Store) × (connection.new ≡ connection.old) }
{
    if !has_the_table(connection) {
        return Err(Refusal::Store);
    }
    read_copies(alloc, connection)
}

impl<S: Alter> SqliteStore<S> {
    ghost use Rattle.std.specs.Prelude.{◌≡◌, IsTrue, IfOk, IfErr, Err};
    ghost use Rattle.std.specs.FinMap as map;
    ghost use Rattle.sqlite.specs.Held.{state};
    ghost use Rattle.sqlite.specs.State.{HasCleanDisk};
    ghost use Rattle.ln_sqlite.specs.Table.{none};
    ghost use Rattle.ln_sqlite.specs.Holds.{IsInOrder, IsTableOf};
    ghost use Rattle.ln_sqlite.specs.Begins.{BeginsWith, MayMakeTable, HasRecordsAlone, IsOther};

    /// A store over a database: it makes the table where the database has none, and reads all records once.
    ///
    /// Errors, beside the connection: 61 where the database failed, has other tables, has a row that is no record (an
    /// id of 32 bytes and a body), or has begun a transaction; 60 where there is no memory, and each row is a record.
    pub fn over(
        alloc: Global,
        mut connection: Connection<S>,
    ) -> Result<SqliteStore<S>, (Refusal, Connection<S>)>
        ensures begins_with_the_table { IfOk result (λ store. HasCleanDisk (state S.Store store.connection)
            → IsTrue (state S.Store store.connection).is_open
            → BeginsWith (state S.Store store.connection) store.copies) }
        ensures has_a_table_in_order { IfOk result (λ store. HasCleanDisk (state S.Store store.connection)
            → IsTrue (state S.Store store.connection).is_open
            → IsInOrder ((state S.Store store.connection).now.trees 0)
            → IsTableOf (state S.Store store.connection) store.copies) }
        ensures begins_empty_where_it_makes_the_table { IfOk result (λ store.
            HasCleanDisk (state S.Store store.connection) → IsTrue (state S.Store store.connection).is_open
            → (state S.Store connection).now.schema ≡ none
            → (store.copies ≡ map.empty) × IsTableOf (state S.Store store.connection) map.empty) }
        ensures changes_no_more { IfOk result (λ store. HasCleanDisk (state S.Store store.connection)
            → IsTrue (state S.Store store.connection).is_open
            → MayMakeTable (state S.Store connection) (state S.Store store.connection)) }
        ensures has_no_failure_yet { IfOk result (λ store. store.failures ≡ 0) }
        ensures hands_back_what_was_there { IfErr result (λ e. HasCleanDisk (state S.Store e.1)
            → IsTrue (state S.Store e.1).is_open → MayMakeTable (state S.Store connection) (state S.Store e.1)) }
        ensures takes_memory_for_records_alone { IfErr result (λ e. e.0 ≡ Refusal.Memory
            → HasCleanDisk (state S.Store e.1) → IsTrue (state S.Store e.1).is_open
            → HasRecordsAlone (state S.Store e.1)) }
        ensures refuses_another_database { IsOther (state S.Store connection)
            → result ≡ Err (Refusal.Store, connection) }
    {
        match begin(alloc, &mut connection) {
            Ok(copies) => Ok(SqliteStore {
                connection,
                copies,
                failures: 0,
            }),
            Err(refusal) => Err((refusal, connection)),
        }
    }

    /// The connection. Takes no memory.
    pub fn into_connection(self) -> Connection<S>
        ensures { result ≡ self.connection }
    {
        self.connection
    }
}

impl<S: Alter + Drop> SqliteStore<S> {
    /// The database, for several stores, each with a part of its records. Error: 60 where there is no memory; the
    /// database is let go then.
    pub fn share(self, alloc: Global) -> Result<SharedDatabase<S>, Refusal> {
        SharedDatabase::new(alloc, self.connection, self.copies)
    }
}

impl<S: Alter> RecordStore for SqliteStore<S> {
    ghost use Rattle.std.specs.Prelude.{◌≡◌, true, IsTrue, IfOk, IfErr, OnOk, OnErr};
    ghost use Rattle.std.specs.FinMap as map;
    ghost use Rattle.sqlite.specs.Held.{state};
    ghost use Rattle.sqlite.specs.State.{HasCleanDisk};
    ghost use Rattle.ln_store.specs.Store.{CountsFailures};
    ghost use Rattle.ln_sqlite.specs.Table.{schema};
    ghost use Rattle.ln_sqlite.specs.Holds.{KeepsTable, IsTableOf, StopLeaves};
    ghost use Rattle.ln_sqlite.specs.Shown.{IsRecordOf, AreIdsOf};

    ghost store_view = { λ s. record { records = s.copies; failed = s.failures; is_fresh = true } };

    /// Errors: 60 where there is no memory, before the database is asked; 61 where it failed. No record has changed
    /// then.
    fn save(&mut self, alloc: Global, id: &[u8; 32], bytes: &[u8]) -> Result<(), Refusal>
        ensures replaces_the_record { OnOk result (self.new.copies ≡ map.insert self.old.copies id.now bytes.now) }
        ensures leaves_the_old { OnErr result (self.new.copies ≡ self.old.copies) }
        ensures counts_failures { CountsFailures result self.old.failures self.new.failures }
        ensures asks_nothing_without_memory { IfErr result (λ e. e ≡ Refusal.Memory → self.new ≡ self.old) }
        ensures keeps_the_table { KeepsTable S.Store self.old.connection self.old.copies
            self.new.connection self.new.copies }
        ensures leaves_one_at_a_stop { HasCleanDisk (state S.Store self.new.connection)
            → IsTableOf (state S.Store self.old.connection) self.old.copies
            → StopLeaves (state S.Store self.old.connection) (state S.Store self.new.connection)
            (map.insert self.old.copies id.now bytes.now) }
    {
        let kept = Bytes::from_slice(alloc, bytes)?;
        let before = self.copies.put(*id, kept)?;
        match save_row(&mut self.connection, id, bytes) {
            Ok(_) => Ok(()),
            Err(_) => {
                self.copies.restore(*id, before);
                Err(counted(&mut self.failures))
            }
        }
    }

    /// Errors: 60 where there is no memory, before the database is asked; 61 where it failed, or the table doesn't have
    /// what it should.
    fn load(&mut self, alloc: Global, id: &[u8; 32]) -> Result<Option<Bytes>, Refusal>
        ensures gives_the_record { IfOk result (λ found. found ≡ map.get self.old.copies id.now) }
        ensures gives_what_the_table_has { HasCleanDisk (state S.Store self.new.connection)
            → (state S.Store self.old.connection).now.schema ≡ schema
            → IfOk result (IsRecordOf ((state S.Store self.old.connection).now.trees 0) id.now) }
        ensures changes_no_record { self.new.copies ≡ self.old.copies }
        ensures counts_failures { CountsFailures result self.old.failures self.new.failures }
        ensures asks_nothing_without_memory { IfErr result (λ e. e ≡ Refusal.Memory → self.new ≡ self.old) }
        ensures keeps_the_table { KeepsTable S.Store self.old.connection self.old.copies
            self.new.connection self.new.copies }
    {
        let kept = self.copies.copy_of(id)?;
        let Ok(rows) = load_rows(&mut self.connection, id) else {
            return Err(counted(&mut self.failures));
        };
        if !is_copy(&rows, &kept) {
            return Err(counted(&mut self.failures));
        }
        Ok(kept)
    }

    /// Errors: 60 where there is no memory, before the database is asked; 61 where it failed, or the table doesn't have
    /// what it should.
    fn ids(&mut self, alloc: Global) -> Result<Vec<[u8; 32]>, Refusal>
        ensures gives_each_id_in_order { IfOk result (λ ids. ids.items ≡ map.keys self.old.copies) }
        ensures gives_what_the_table_has { HasCleanDisk (state S.Store self.new.connection)
            → (state S.Store self.old.connection).now.schema ≡ schema
            → IfOk result (λ ids. AreIdsOf ((state S.Store self.old.connection).now.trees 0) ids.items) }
        ensures changes_no_record { self.new.copies ≡ self.old.copies }
        ensures counts_failures { CountsFailures result self.old.failures self.new.failures }
        ensures asks_nothing_without_memory { IfErr result (λ e. e ≡ Refusal.Memory → self.new ≡ self.old) }
        ensures keeps_the_table { KeepsTable S.Store self.old.connection self.old.copies
            self.new.connection self.new.copies }
    {
        let ids = self.copies.ids(alloc)?;
        match has_ids(&mut self.connection, &ids) {
            Ok(true) => Ok(ids),
            _ => Err(counted(&mut self.failures)),
        }
    }

    fn failures(&self) -> u64
        ensures { result ≡ self.now.failures }
    {
        self.failures
    }
}
