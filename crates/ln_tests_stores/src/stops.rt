//! A stop at each call that an open and a save make of a file: the record is the old one or the new one, whole, and
//! every other is as it was.

ghost use Rattle.std.specs.Prelude.{IsTrue};
ghost use Rattle.sqlite_disk.specs.Memory.{memory_is_usable};
ghost use Rattle.sqlite_disk.specs.Fuse.{inner_of, IsFresh};

use crate::database::{Disks, Image, NEVER, Stop, connected};
use crate::samples::{Sample, has_all, save_all};
use ln_refusals::Refusal;
use ln_sqlite::SqliteStore;
use ln_store::RecordStore;
use sqlite::{Alter, Connection};
use sqlite_disk::Crash;
use std::alloc::Global;

/// A save over the files of a store.
#[derive(Clone, Copy)]
struct Case {
    /// After how many pages the log is copied into the database file.
    frames: usize,
    before: &'static [Sample],
    save: Sample,
    behind: &'static [Sample],
}

/// What a store that is opened again has.
#[derive(Clone, Copy, Debug, PartialEq, Eq)]
enum Found {
    Old,
    New,
    Other,
}

/// What is done with a store.
#[derive(Clone, Copy)]
enum Work {
    /// It is opened.
    Opens,
    /// It is given the records of before.
    Begins,
    /// It is given the record of the save.
    Saves,
    /// Its records are compared with those of before and those after the save.
    Looks,
}

/// What is told of that where a file fails from some call on.
#[derive(Clone, Copy, Debug, PartialEq, Eq)]
enum Said {
    NotOpened,
    Opened,
    Saved,
    Refused,
    OtherwiseRefused,
    Has(Found),
}

fn answered(refusal: Option<Refusal>) -> Said {
    match refusal {
        None => Said::Saved,
        Some(Refusal::Store) => Said::Refused,
        Some(_) => Said::OtherwiseRefused,
    }
}

fn found_in<S: RecordStore>(alloc: Global, store: &mut S, case: &Case) -> Result<Found, Refusal> {
    if has_all(alloc, store, case.before)? {
        return Ok(Found::Old);
    }
    if has_all(alloc, store, case.behind)? {
        return Ok(Found::New);
    }
    Ok(Found::Other)
}

fn shown_of<S: RecordStore>(alloc: Global, store: &mut S, case: &Case, work: Work) -> Said {
    match work {
        Work::Opens => Said::Opened,
        Work::Begins => answered(save_all(alloc, store, case.before).err()),
        Work::Saves => answered(case.save.save(alloc, store).err()),
        Work::Looks => match found_in(alloc, store, case) {
            Ok(found) => Said::Has(found),
            Err(refusal) => answered(Some(refusal)),
        },
    }
}

/// What is told of work with a store over a database, and what is after its connection. It is generic, as the type of
/// a database over files is dear to name.
fn shown_over<S: Alter + Drop>(
    alloc: Global,
    connection: Connection<S>,
    case: &Case,
    work: Work,
) -> (Said, S) {
    match SqliteStore::over(alloc, connection) {
        Ok(mut store) => {
            let said = shown_of(alloc, &mut store, case, work);
            (said, store.into_connection().into_store())
        }
        Err((_, connection)) => (Said::NotOpened, connection.into_store()),
    }
}

/// What is told of work with a store over files, and the files after it.
fn shown_with(alloc: Global, disks: Disks, case: &Case, work: Work) -> (Said, Disks)
    requires log { IsFresh disks.log × IsTrue (memory_is_usable (inner_of disks.log)) }
    requires db { IsFresh disks.db × IsTrue (memory_is_usable (inner_of disks.db)) }
{
    match connected(alloc, disks, case.frames) {
        Ok(connection) => {
            let (said, behind) = shown_over(alloc, connection, case, work);
            (said, behind.close())
        }
        Err(disks) => (Said::NotOpened, disks),
    }
}

/// What a store has that is opened over files with these bytes.
fn found_with(alloc: Global, image: &Image, case: &Case) -> Result<Found, Refusal> {
    match shown_with(alloc, image.disks(alloc, NEVER)?, case, Work::Looks) {
        (Said::Has(found), _) => Ok(found),
        (Said::NotOpened, _) => Ok(Found::Other),
        _ => Err(Refusal::Store),
    }
}

/// What the save answers; what is there once all is lost that wasn't synced; and what is there with all that was
/// written.
fn stopped(
    alloc: Global,
    image: &Image,
    stop: Stop,
    case: &Case,
) -> Result<(Said, Found, Found), Refusal> {
    let (answer, mut disks) = shown_with(alloc, image.disks(alloc, stop)?, case, Work::Saves);
    let written = Image::of(alloc, &disks)?;
    disks.log.crash();
    disks.db.crash();
    let synced = Image::of(alloc, &disks)?;
    let found = found_with(alloc, &synced, case)?;
    if written.is_as(&synced) {
        return Ok((answer, found, found));
    }
    Ok((answer, found, found_with(alloc, &written, case)?))
}

/// Whether a stop has left what it may: a store whose open was stopped or whose save has failed has the old records or
/// the new ones, and one whose save has answered Ok the new ones, with and without what wasn't synced.
fn is_lawful(told: (Said, Found, Found)) -> bool {
    match told {
        (Said::NotOpened, synced, kept) => synced == Found::Old && kept == Found::Old,
        (Said::Refused, synced, kept) => synced != Found::Other && kept != Found::Other,
        (Said::Saved, synced, kept) => synced == Found::New && kept == Found::New,
        _ => false,
    }
}

/// Whether a store is opened where a file fails from some call on.
fn is_opened(alloc: Global, image: &Image, stop: Stop, case: &Case) -> Result<bool, Refusal> {
    let (said, disks) = shown_with(alloc, image.disks(alloc, stop)?, case, Work::Opens);
    drop(disks);
    Ok(said == Said::Opened)
}

/// The least number of calls of a file by which a store is opened, or 127 where they are more.
fn calls_of_an_open(
    alloc: Global,
    image: &Image,
    in_log: bool,
    case: &Case,
) -> Result<u64, Refusal> {
    let mut calls = 0u64;
    for step in [64, 32, 16, 8, 4, 2, 1] {
        let tried = calls | (step - 1);
        if !is_opened(
            alloc,
            image,
            Stop {
                in_log,
                calls: tried,
            },
            case,
        )? {
            calls |= step;
        }
    }
    Ok(calls)
}

/// Stops at each call of a file from this one on, until a save answers Ok: how many there were, and the first that has
/// left what it may not.
fn stops(
    alloc: Global,
    image: &Image,
    first: Stop,
    case: &Case,
) -> Result<(u64, Option<u64>), Refusal> {
    for more in 0..1000u64 {
        let calls = first.calls.saturating_add(more);
        let stop = Stop { calls, ..first };
        let told = stopped(alloc, image, stop, case)?;
        if !is_lawful(told) {
            return Ok((more, Some(calls)));
        }
        if told.0 == Said::Saved {
            return Ok((more, None));
        }
    }
    Ok((1000, Some(1000)))
}

/// The files of a store with the records of before.
fn begun(alloc: Global, case: &Case) -> Result<Image, Refusal> {
    let disks = Image::empty(alloc).disks(alloc, NEVER)?;
    match shown_with(alloc, disks, case, Work::Begins) {
        (Said::Saved, disks) => Image::of(alloc, &disks),
        _ => Err(Refusal::Store),
    }
}

/// The records beside the one that is saved.
const FIRST: Sample = Sample {
    id: 1,
    len: 3000,
    byte: 11,
};

const LAST: Sample = Sample {
    id: 4,
    len: 10,
    byte: 14,
};

/// A record of 3 KB is replaced.
const REPLACES: Case = Case {
    frames: 1000,
    before: &[
        FIRST,
        Sample {
            id: 2,
            len: 3000,
            byte: 12,
        },
        LAST,
    ],
    save: Sample {
        id: 2,
        len: 3000,
        byte: 22,
    },
    behind: &[
        FIRST,
        Sample {
            id: 2,
            len: 3000,
            byte: 22,
        },
        LAST,
    ],
};

/// The table grows by ten pages.
const GROWS: Case = Case {
    frames: 1000,
    before: &[FIRST, LAST],
    save: Sample {
        id: 3,
        len: 40_000,
        byte: 13,
    },
    behind: &[
        FIRST,
        Sample {
            id: 3,
            len: 40_000,
            byte: 13,
        },
        LAST,
    ],
};

/// The first save of all.
const BEGINS: Case = Case {
    frames: 1000,
    before: &[],
    save: Sample {
        id: 2,
        len: 3000,
        byte: 12,
    },
    behind: &[Sample {
        id: 2,
        len: 3000,
        byte: 12,
    }],
};

/// Whether each stop has left what it may, and there were at least so many of either file.
fn are_lawful(told: &[(u64, Option<u64>); 2], least: (u64, u64)) -> bool {
    let all = told[0].1.is_none() && told[1].1.is_none();
    all && told[0].0 >= least.0 && told[1].0 >= least.1
}

/// The stops within a save, of either file.
fn stops_of(alloc: Global, case: &Case) -> Result<[(u64, Option<u64>); 2], Refusal> {
    let image = begun(alloc, case)?;
    let mut told = [(0, None); 2];
    for (place, in_log) in [(0, true), (1, false)] {
        let calls = calls_of_an_open(alloc, &image, in_log, case)?;
        told[place] = stops(alloc, &image, Stop { in_log, calls }, case)?;
    }
    Ok(told)
}

// A commit writes its pages after the log, syncs it, writes the byte that makes them count, and syncs it again: at
// least four calls of the log. A log that is copied into the database file writes that and syncs it: at least two.
#[test]
fn saves(rt: HostRuntime) -> Result<(), Refusal> {
    for (case, least) in [
        (REPLACES, (4, 0)),
        (
            Case {
                frames: 2,
                ..REPLACES
            },
            (4, 2),
        ),
        (GROWS, (4, 0)),
        (BEGINS, (4, 0)),
    ] {
        let told = stops_of(rt.alloc(), &case)?;
        assert!(rt; are_lawful(&told, least), "{told:?}");
    }
    Ok(())
}

// Over files that have nothing, at some calls of an open and a save: an open makes the table.
#[test]
fn open_of_nothing(rt: HostRuntime) -> Result<(), Refusal> {
    let image = Image::empty(rt.alloc());
    for (in_log, calls) in [
        (true, 0),
        (true, 9),
        (true, 18),
        (true, 27),
        (true, 36),
        (true, 45),
        (true, 54),
        (true, 63),
        (false, 0),
        (false, 1),
        (false, 2),
        (false, 4),
    ] {
        let told = stopped(rt.alloc(), &image, Stop { in_log, calls }, &BEGINS)?;
        assert!(rt; is_lawful(told), "{in_log} {calls} {told:?}");
    }
    Ok(())
}
