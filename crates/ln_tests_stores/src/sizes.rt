//! 1,001 records, one of them of 1.5 MB: over a database that is stopped and opened again, over a file that is, and in
//! memory.

ghost use Rattle.std.specs.Prelude.{IsTrue};
ghost use Rattle.sqlite_disk.specs.Memory.{memory_is_usable};
ghost use Rattle.sqlite_disk.specs.Fuse.{inner_of, IsFresh};

use crate::database::{Disks, Image, NEVER, connected};
use crate::samples::Sample;
use ln_refusals::Refusal;
use ln_sqlite::{FileRecords, SqliteStore};
use ln_store::{MemoryStore, RecordStore};
use sqlite::{Alter, Connection};
use sqlite_disk::Crash;
use std::alloc::Global;
use std::fs;
use std::test::Fail;

/// The record of 1.5 MB, after all others.
const GREAT: Sample = Sample {
    id: 255,
    len: 1_572_864,
    byte: 9,
};

/// How many others there are.
const OTHERS: u64 = 1000;

/// The id of one of the others, whose record is its number.
fn id_of(number: u64) -> [u8; 32] {
    let mut id = [0; 32];
    id[..8].copy_from_slice(&number.to_be_bytes());
    id
}

/// Saves all records. Always true.
fn fill<S: RecordStore>(alloc: Global, store: &mut S) -> Result<bool, Refusal> {
    for number in 0..OTHERS {
        store.save(alloc, &id_of(number), &number.to_be_bytes())?;
    }
    GREAT.save(alloc, store)?;
    Ok(true)
}

/// Whether a store has as many records, the great one, and the last of the others.
fn has_them<S: RecordStore>(alloc: Global, store: &mut S) -> Result<bool, Refusal> {
    let last = OTHERS - 1;
    let count = store.ids(alloc)?.len();
    let found = store.load(alloc, &id_of(last))?;
    let is_last = match &found {
        Some(record) => record.as_slice() == last.to_be_bytes().as_slice(),
        None => false,
    };
    Ok(count == 1001 && is_last && GREAT.is_in(alloc, store)?)
}

/// Fills a store over a database, or says whether it has all records; and what is after its connection.
fn worked_over<S: Alter + Drop>(
    alloc: Global,
    connection: Connection<S>,
    fills: bool,
) -> (Result<bool, Refusal>, S) {
    match SqliteStore::over(alloc, connection) {
        Ok(mut store) => {
            let done = if fills {
                fill(alloc, &mut store)
            } else {
                has_them(alloc, &mut store)
            };
            (done, store.into_connection().into_store())
        }
        Err((refusal, connection)) => (Err(refusal), connection.into_store()),
    }
}

/// The same of one over files, and the files after it.
fn worked_with(alloc: Global, disks: Disks, fills: bool) -> (Result<bool, Refusal>, Disks)
    requires log { IsFresh disks.log × IsTrue (memory_is_usable (inner_of disks.log)) }
    requires db { IsFresh disks.db × IsTrue (memory_is_usable (inner_of disks.db)) }
{
    match connected(alloc, disks, 1000) {
        Ok(connection) => {
            let (done, behind) = worked_over(alloc, connection, fills);
            (done, behind.close())
        }
        Err(disks) => (Err(Refusal::Store), disks),
    }
}

/// Whether a database has them all that was stopped, without what wasn't synced.
fn are_in_a_database(alloc: Global) -> Result<bool, Refusal> {
    let (filled, mut disks) = worked_with(alloc, Image::empty(alloc).disks(alloc, NEVER)?, true);
    disks.log.crash();
    disks.db.crash();
    let image = Image::of(alloc, &disks)?;
    let (found, disks) = worked_with(alloc, image.disks(alloc, NEVER)?, false);
    drop(disks);
    Ok(filled? && found?)
}

/// Whether a store in memory has them all.
fn are_in_memory(alloc: Global) -> Result<bool, Refusal> {
    let mut store = MemoryStore::new(alloc);
    Ok(fill(alloc, &mut store)? && has_them(alloc, &mut store)?)
}

/// Saves the great record in a file's store.
fn put_in_file(rt: &HostRuntime, path: &str) -> Result<(), Refusal> {
    let mut store = FileRecords::open(rt, path)?;
    GREAT.save(rt.alloc(), &mut store)
}

/// Whether the store of a file that is opened again has it.
fn is_in_file(rt: &HostRuntime, path: &str) -> Result<bool, Refusal> {
    let mut store = FileRecords::open(rt, path)?;
    GREAT.is_in(rt.alloc(), &mut store)
}

#[test]
fn great_stores(rt: HostRuntime) -> Result<(), Fail> {
    assert_eq!(rt; are_in_memory(rt.alloc()), Ok(true));
    assert_eq!(rt; are_in_a_database(rt.alloc()), Ok(true));
    let _ = fs::remove_dir_all(&rt, "ln_database_tests_sizes");
    fs::create_dir(&rt, "ln_database_tests_sizes")?;
    assert_eq!(rt; put_in_file(&rt, "ln_database_tests_sizes/a.db"), Ok(()));
    assert_eq!(rt; is_in_file(&rt, "ln_database_tests_sizes/a.db"), Ok(true));
    fs::remove_dir_all(&rt, "ln_database_tests_sizes")?;
    Ok(())
}
