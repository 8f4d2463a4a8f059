//! Stores that share a database, each in a thread of its own: each record that is found is the last that was saved,
//! or the one that a save was refused with; and an id is one store's.

ghost use Rattle.std.specs.Prelude.{IsTrue, IfOk};
ghost use Rattle.sqlite_disk.specs.Memory.{memory_is_usable};
ghost use Rattle.sqlite_disk.specs.Fuse.{inner_of, IsFresh};

use crate::database::{Disks, Image, NEVER, Stop, connected, connected_anew, no_files};
use crate::samples::Sample;
use ln_refusals::Refusal;
use ln_sqlite::{SharedDatabase, SharedStore, SqliteStore};
use ln_store::RecordStore;
use sqlite::{Alter, Connection, Files};
use sqlite_disk::{Crash, Disk};
use std::alloc::Global;
use std::sync::Wait;
use std::test::Fail;
use std::thread;
use std::thread::{JoinHandle, Threads};

/// How many stores there are, and how often each saves.
const STORES: u8 = 4;

const SAVES: u8 = 12;

/// A store's record after so many saves.
fn sample(store: u8, saves: u8) -> Sample {
    Sample {
        id: store,
        len: 3000,
        byte: saves,
    }
}

/// Saves until a save is refused by 61. How many weren't, or 255 where it was refused otherwise.
fn saved<S: RecordStore>(alloc: Global, store: &mut S, number: u8) -> u8 {
    for saves in 1..=SAVES {
        match sample(number, saves).save(alloc, store) {
            Ok(()) => {}
            Err(Refusal::Store) => return saves - 1,
            Err(_) => return 255,
        }
    }
    SAVES
}

/// What threads answer, in their order; a thread that wasn't made counts as one without a save.
fn joined<R: Threads>(rt: &R, threads: Vec<JoinHandle<u8>>) -> [u8; 4] {
    let mut all = [0; 4];
    for (at, thread) in threads.into_iter().enumerate() {
        let answer = thread.join(rt);
        if let Some(place) = all.get_mut(at) {
            *place = answer;
        }
    }
    all
}

/// How many saves of each store weren't refused, all of which save at once.
fn all_save<S, R>(rt: R, alloc: Global, database: &SharedDatabase<S>) -> Result<[u8; 4], Refusal>
where
    S: Alter + Drop + Send + 'static,
    R: Threads + Wait + Copy + Send + Sync + 'static,
{
    let mut threads = Vec::with_capacity(alloc, 4)?;
    for number in 0..STORES {
        let mut store = database.store(rt, alloc)?;
        match thread::spawn(&rt, move || saved(alloc, &mut store, number)) {
            Ok(thread) => threads.push(thread)?,
            Err(closure) => drop(closure),
        }
    }
    Ok(joined(&rt, threads))
}

/// Whether a store has the record that its last save left: that of the save that was refused, too.
fn has_the_last<S: RecordStore>(
    alloc: Global,
    store: &mut S,
    number: u8,
    saves: u8,
) -> Result<bool, Refusal> {
    let Some(found) = store.load(alloc, &[number; 32])? else {
        return Ok(saves == 0);
    };
    drop(found);
    if saves > 0 && saves <= SAVES && sample(number, saves).is_in(alloc, store)? {
        return Ok(true);
    }
    Ok(saves < SAVES && sample(number, saves + 1).is_in(alloc, store)?)
}

fn have_the_last<S: RecordStore>(
    alloc: Global,
    store: &mut S,
    saves: &[u8; 4],
) -> Result<bool, Refusal> {
    for (number, saves) in (0..STORES).zip(saves.iter()) {
        if !has_the_last(alloc, store, number, *saves)? {
            return Ok(false);
        }
    }
    Ok(true)
}

/// A store over a database, or why there is none.
fn store_over<S: Alter + Drop>(
    alloc: Global,
    connection: Connection<S>,
) -> Result<SqliteStore<S>, Refusal> {
    match SqliteStore::over(alloc, connection) {
        Ok(store) => Ok(store),
        Err((refusal, connection)) => {
            drop(connection);
            Err(refusal)
        }
    }
}

/// What is after the connection of a database over which all save at once, and how many saves of each weren't refused.
fn saved_over<S, R>(
    rt: R,
    alloc: Global,
    connection: Connection<S>,
    saves: &mut [u8; 4],
) -> Result<S, Refusal>
where
    S: Alter + Drop + Send + 'static,
    R: Threads + Wait + Copy + Send + Sync + 'static,
{
    let database = store_over(alloc, connection)?.share(alloc)?;
    *saves = all_save(rt, alloc, &database)?;
    match database.into_connection() {
        Some(connection) => Ok(connection.into_store()),
        None => Err(Refusal::Store),
    }
}

/// The same over files.
fn saved_with<D, R>(
    rt: R,
    alloc: Global,
    disks: Files<D>,
    saves: &mut [u8; 4],
) -> Result<Files<D>, Refusal>
where
    D: Disk + Drop + Send + 'static,
    R: Threads + Wait + Copy + Send + Sync + 'static,
    requires log { IsTrue (D.Disk.is_usable disks.log) }
    requires db { IsTrue (D.Disk.is_usable disks.db) }
{
    let connection = no_files(connected(alloc, disks, 1000))?;
    Ok(saved_over(rt, alloc, connection, saves)?.close())
}

/// Whether a database has what the saves left.
fn has_all<S: Alter + Drop>(
    alloc: Global,
    connection: Connection<S>,
    saves: &[u8; 4],
) -> Result<bool, Refusal> {
    have_the_last(alloc, &mut store_over(alloc, connection)?, saves)
}

/// Whether files with these bytes have it.
fn are_kept(alloc: Global, image: &Image, saves: &[u8; 4]) -> Result<bool, Refusal> {
    let disks = image.disks(alloc, NEVER)?;
    has_all(alloc, no_files(connected(alloc, disks, 1000))?, saves)
}

/// Whether a stop leaves of files what the saves left.
fn are_kept_by(alloc: Global, mut disks: Disks, saves: &[u8; 4]) -> Result<bool, Refusal> {
    disks.log.crash();
    disks.db.crash();
    let image = Image::of(alloc, &disks)?;
    are_kept(alloc, &image, saves)
}

/// New files, the log of which fails from some call on.
fn failing_from(alloc: Global, calls: u64) -> Result<Disks, Refusal>
    ensures log { IfOk result (λ disks. IsFresh disks.log × IsTrue (memory_is_usable (inner_of disks.log))) }
    ensures db { IfOk result (λ disks. IsFresh disks.db × IsTrue (memory_is_usable (inner_of disks.db))) }
{
    let stop = Stop {
        in_log: true,
        calls,
    };
    Image::empty(alloc).disks(alloc, stop)
}

// Threads that save at once, over a file that fails from some call on. Twelve commits are the fewest, of four calls of
// the log each, so by 40 calls not all is saved.
#[test]
fn saves_at_once(rt: HostRuntime) -> Result<(), Refusal> {
    let alloc = rt.alloc();
    for calls in [32, 40, 100, 10_000] {
        let mut saves = [0; 4];
        let disks = saved_with(rt, alloc, failing_from(alloc, calls)?, &mut saves)?;
        assert!(&rt; are_kept_by(alloc, disks, &saves)?);
        assert!(&rt; calls < 10_000 || saves == [SAVES; 4]);
        assert!(&rt; calls > 40 || saves != [SAVES; 4]);
    }
    Ok(())
}

/// A database that has the records 1 and 2.
fn two_records<S: Alter + Drop>(
    alloc: Global,
    connection: Connection<S>,
) -> Result<SharedDatabase<S>, Refusal> {
    let mut store = store_over(alloc, connection)?;
    sample(1, 1).save(alloc, &mut store)?;
    sample(2, 1).save(alloc, &mut store)?;
    store.share(alloc)
}

/// Whether a store has the one record of which it is, another one none, and the database the rest.
fn are_listed<S: Alter + Drop, R: Wait + Drop>(
    rt: &R,
    alloc: Global,
    database: &SharedDatabase<S>,
    one: &mut SharedStore<S, R>,
    other: &mut SharedStore<S, R>,
) -> Result<bool, Refusal> {
    let left = database.ids(rt, alloc)?.as_slice() == [[2; 32]].as_slice();
    let own = one.ids(alloc)?.as_slice() == [[1; 32]].as_slice();
    let none = other.ids(alloc)?.is_empty();
    Ok(left && own && none && sample(1, 1).is_in(alloc, one)?)
}

/// Whether a store is refused an id that is another's, and one that has a record and no store.
fn is_refused_others<S: RecordStore>(alloc: Global, other: &mut S) -> bool {
    let of_one = sample(1, 2).save(alloc, other);
    let of_none = sample(2, 2).save(alloc, other);
    of_one == Err(Refusal::Store) && of_none == Err(Refusal::Store) && other.failures() == 2
}

/// Whether each store has what it saves.
fn have_their_own<S: RecordStore>(
    alloc: Global,
    one: &mut S,
    other: &mut S,
) -> Result<bool, Refusal> {
    sample(3, 1).save(alloc, other)?;
    sample(1, 2).save(alloc, one)?;
    Ok(sample(1, 2).is_in(alloc, one)? && sample(3, 1).is_in(alloc, other)?)
}

/// Whether two stores of a database have each its own records alone.
fn are_apart<S: Alter + Drop, R: Wait + Copy + Drop>(
    rt: R,
    alloc: Global,
    database: &SharedDatabase<S>,
) -> Result<bool, Refusal> {
    let mut one = database.store_of(rt, alloc, &[1; 32])?;
    let mut other = database.store(rt, alloc)?;
    let listed = are_listed(&rt, alloc, database, &mut one, &mut other)?;
    let refused = is_refused_others(alloc, &mut other);
    let saved = have_their_own(alloc, &mut one, &mut other)?;
    Ok(listed && refused && saved && database.store_of(rt, alloc, &[3; 32]).is_err())
}

/// Whether a database has what these stores saved, once they are gone.
fn are_left<S: Alter + Drop>(alloc: Global, database: SharedDatabase<S>) -> Result<bool, Refusal> {
    let Some(connection) = database.into_connection() else {
        return Ok(false);
    };
    let mut store = store_over(alloc, connection)?;
    let first = sample(1, 2).is_in(alloc, &mut store)?;
    let second = sample(2, 1).is_in(alloc, &mut store)?;
    Ok(first && second && sample(3, 1).is_in(alloc, &mut store)?)
}

/// Whether stores that come and go over a database have each its own records alone.
fn stay_apart<S: Alter + Drop, R: Wait + Copy + Drop>(
    rt: R,
    alloc: Global,
    connection: Connection<S>,
) -> Result<bool, Refusal> {
    let database = two_records(alloc, connection)?;
    let apart = are_apart(rt, alloc, &database)?;
    Ok(apart && are_left(alloc, database)?)
}

// Stores that come and go over one database: each has its own records alone.
#[test]
fn ids_are_one_stores(rt: HostRuntime) -> Result<(), Refusal> {
    let alloc = rt.alloc();
    assert!(&rt; stay_apart(rt, alloc, connected_anew(alloc)?)?);
    Ok(())
}
