//! A database over two files in memory, and what a stop leaves of them.

ghost use Rattle.std.specs.Prelude.{◌≡◌, IsTrue, IfOk};
ghost use Rattle.sqlite_disk.specs.Memory.{memory_is_usable};
ghost use Rattle.sqlite_disk.specs.Fuse.{inner_of, IsFresh};

use ln_refusals::Refusal;
use sqlite::{Connection, FileStore, Files, Options};
use sqlite_disk::{Disk, Fuse, Memory};
use std::alloc::Global;

/// A file, and after how many calls it fails.
#[derive(Clone, Copy)]
pub struct Stop {
    pub in_log: bool,
    pub calls: u64,
}

/// No stop: more calls than a test makes.
pub const NEVER: Stop = Stop {
    in_log: true,
    calls: u64::MAX,
};

/// The log and the database file, in memory, one of which may fail.
pub type Disks = Files<Fuse<Memory>>;

/// A file with these bytes, which a crash leaves, and which takes so many calls.
fn file(alloc: Global, bytes: &[u8], calls: u64) -> Result<Fuse<Memory>, Refusal>
    ensures { IfOk result (λ file. IsFresh file × IsTrue (memory_is_usable (inner_of file))) }
{
    let mut file = Memory::new(alloc);
    if file.write_at(0, bytes).is_err() {
        return Err(Refusal::Memory);
    }
    match file.sync() {
        Ok(()) => Ok(Fuse::new(file, calls)),
        Err(_) => Err(Refusal::Memory),
    }
}

/// The bytes of both files.
#[derive(Drop)]
pub struct Image {
    log: Vec<u8>,
    db: Vec<u8>,
}

impl Image {
    pub fn empty(alloc: Global) -> Image {
        Image {
            log: Vec::new(alloc),
            db: Vec::new(alloc),
        }
    }

    /// What the files have, written or not yet synced.
    pub fn of(alloc: Global, disks: &Disks) -> Result<Image, Refusal> {
        Ok(Image {
            log: Vec::from_slice(alloc, disks.log.inner().bytes())?,
            db: Vec::from_slice(alloc, disks.db.inner().bytes())?,
        })
    }

    pub fn is_as(&self, other: &Image) -> bool {
        self.log.as_slice() == other.log.as_slice() && self.db.as_slice() == other.db.as_slice()
    }

    /// Files with these bytes, one of which fails from some call on.
    pub fn disks(&self, alloc: Global, stop: Stop) -> Result<Disks, Refusal>
        ensures log { IfOk result (λ disks. IsFresh disks.log × IsTrue (memory_is_usable (inner_of disks.log))) }
        ensures db { IfOk result (λ disks. IsFresh disks.db × IsTrue (memory_is_usable (inner_of disks.db))) }
    {
        let (of_log, of_db) = if stop.in_log {
            (stop.calls, u64::MAX)
        } else {
            (u64::MAX, stop.calls)
        };
        let log = file(alloc, &self.log, of_log)?;
        let db = file(alloc, &self.db, of_db)?;
        Ok(Files { log, db })
    }
}

/// A connection to the files, whose log is copied into the database file once it has so many pages; or the files as
/// they are then.
pub fn connected<D: Disk + Drop>(
    alloc: Global,
    disks: Files<D>,
    frames: usize,
) -> Result<Connection<FileStore<D>>, Files<D>>
    requires log { IsTrue (D.Disk.is_usable disks.log) }
    requires db { IsTrue (D.Disk.is_usable disks.db) }
{
    let options = Options {
        checkpoint_frames: frames,
        ..Options::new(1)
    };
    match Connection::open_files(alloc, disks, options) {
        Ok(connection) => Ok(connection),
        Err((_, left)) => Err(left.into_files()),
    }
}

/// A connection to new files.
pub fn connected_anew(alloc: Global) -> Result<Connection<FileStore<Fuse<Memory>>>, Refusal> {
    let disks = Image::empty(alloc).disks(alloc, NEVER)?;
    no_files(connected(alloc, disks, 1000))
}

/// What was opened, or why it wasn't. What is generic pays nothing for the depth of what it drops.
pub fn no_files<C, D: Drop>(opened: Result<C, D>) -> Result<C, Refusal> {
    match opened {
        Ok(connection) => Ok(connection),
        Err(files) => {
            drop(files);
            Err(Refusal::Store)
        }
    }
}
