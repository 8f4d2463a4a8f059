//! The records that a table has as a store begins.

ghost use Rattle.std.specs.Prelude.{◌≡◌, IsTrue, IfSome, IfOk, IfErr, OnOk, length};
ghost use Rattle.std.specs.FinMap as map;
ghost use Rattle.sqlite.specs.Held.{state};
ghost use Rattle.sqlite.specs.State.{HasCleanDisk};
ghost use Rattle.sqlite_value.specs.Order.{column};
ghost use Rattle.sqlite_value.specs.declared.value.Value.TheVariants.{Blob};
ghost use Rattle.ln_sqlite.specs.Table.{schema};
ghost use Rattle.ln_sqlite.specs.Holds.{HasRecords};
ghost use Rattle.ln_sqlite.specs.Reading.{Takes, TakesAll, ShowsRecord, ShowRecords};
ghost use Rattle.ln_sqlite.specs.Begins.{AreRecords, Stays};

use crate::copies::Copies;
use crate::statements::all_rows;
use ln_bytes::Bytes;
use ln_refusals::Refusal;
use sqlite::types::ValueRef;
use sqlite::{Alter, Connection, Row};
use std::alloc::Global;

/// The bytes in a column of a row, where these are bytes.
pub(crate) fn bytes_in(row: &Row, at: usize) -> Option<&[u8]>
    ensures { IfSome result (λ bytes. column row.now at ≡ Blob bytes.now) }
{
    match row.get_ref(at) {
        Ok(ValueRef::Blob(bytes)) => Some(bytes),
        _ => None,
    }
}

fn id_in(row: &Row) -> Option<[u8; 32]>
    ensures { IfSome result (λ id. (column row.now 0 ≡ Blob id) × (length id ≡ 32)) }
{
    let bytes = bytes_in(row, 0)?;
    <[u8; 32]>::try_from(bytes).ok()
}

/// Takes the record of a row, whose id no row before had.
fn take_row(alloc: Global, copies: &mut Copies, row: &Row) -> Result<(), Refusal>
    ensures { OnOk result (Takes copies.old row.now copies.new) }
{
    let Some(id) = id_in(row) else {
        return Err(Refusal::Store);
    };
    let Some(bytes) = bytes_in(row, 1) else {
        return Err(Refusal::Store);
    };
    match copies.put(id, Bytes::from_slice(alloc, bytes)?)? {
        None => Ok(()),
        Some(earlier) => {
            drop(earlier);
            Err(Refusal::Store)
        }
    }
}

fn shows_record(row: &Row) -> bool
    ensures { IsTrue result → ShowsRecord row.now }
{
    id_in(row).is_some() && bytes_in(row, 1).is_some()
}

fn show_records(rows: &[Row]) -> bool
    ensures { IsTrue result → ShowRecords rows.now }
{
    for at in 0..rows.len() {
        if !shows_record(&rows[at]) {
            return false;
        }
    }
    true
}

/// Takes all, whose ids differ. It takes memory only where each row shows a record.
fn take_rows(alloc: Global, rows: &[Row]) -> Result<Copies, Refusal>
    ensures takes_all { IfOk result (TakesAll map.empty rows.now) }
    ensures takes_memory_for_records_alone { IfErr result (λ e. e ≡ Refusal.Memory → ShowRecords rows.now) }
{
    if !show_records(rows) {
        return Err(Refusal::Store);
    }
    let mut copies = Copies::new(alloc);
    for row in rows.iter() {
        take_row(alloc, &mut copies, row)?;
    }
    Ok(copies)
}

/// Reads each record once. Refuses a table that has a row that is no record.
pub(crate) fn read_copies<S: Alter>(
    alloc: Global,
    connection: &mut Connection<S>,
) -> Result<Copies, Refusal>
    ensures reads_each_record { HasCleanDisk (state S.Store connection.new) → IfOk result (λ copies.
        (state S.Store connection.old).now.schema ≡ schema
        → HasRecords ((state S.Store connection.old).now.trees 0) copies
        × AreRecords ((state S.Store connection.old).now.trees 0)) }
    ensures takes_memory_for_records_alone { HasCleanDisk (state S.Store connection.new) → IfErr result (λ e.
        e ≡ Refusal.Memory → (state S.Store connection.old).now.schema ≡ schema
        → AreRecords ((state S.Store connection.old).now.trees 0)) }
    ensures changes_nothing { HasCleanDisk (state S.Store connection.new)
        → IsTrue (state S.Store connection.new).is_open → (state S.Store connection.old).now.schema ≡ schema
        → Stays (state S.Store connection.old) (state S.Store connection.new) }
    ensures was_open { HasCleanDisk (state S.Store connection.new) → IsTrue (state S.Store connection.new).is_open
        → IsTrue (state S.Store connection.old).is_open }
    ensures was_clean { HasCleanDisk (state S.Store connection.new) → HasCleanDisk (state S.Store connection.old) }
{
    match all_rows(connection) {
        Ok(rows) => take_rows(alloc, &rows),
        Err(_) => Err(Refusal::Store),
    }
}
