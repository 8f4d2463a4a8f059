//! Stores that share a database, and a sync.

ghost use Rattle.std.specs.Prelude.{◌≡◌, ◌⊎◌};
ghost use Rattle.ln_msgs.specs.Pings.Counted.{HasRisen};

use crate::compared::is_copy;
use crate::copies::Copies;
use crate::desk::Desk;
use crate::sql_store::counted;
use crate::statements::load_rows;
use crate::together::{Job, write_all};
use ln_bytes::Bytes;
use ln_refusals::Refusal;
use ln_store::RecordStore;
use sqlite::{Alter, Connection};
use std::alloc::Global;
use std::sync::atomic::{AtomicU64, Ordering};
use std::sync::{Arc, Condvar, Mutex, Wait};

/// What a store finds in place of an answer until its record is written, or isn't.
const PENDING: u64 = 0;

const WRITTEN: u64 = 1;

const FAILED: u64 = 2;

struct Shared<S: Alter> {
    desk: Mutex<Desk<S>>,
    /// Told when a store is done with the database.
    free: Condvar,
}

impl<S: Alter + Drop> Drop for Shared<S> {
    fn drop(self) {
        let Shared { desk, free: _ } = self;
        drop(desk.into_inner());
    }
}

impl<S: Alter + Drop> Shared<S> {
    fn into_connection(self) -> Option<Connection<S>> {
        let Shared { desk, free: _ } = self;
        desk.into_inner().into_connection()
    }

    /// Whether the database has this body for an id, or none. It waits for a store that uses it.
    fn has<R: Wait>(&self, rt: &R, id: &[u8; 32], kept: &Option<Bytes>) -> bool {
        let mut desk = self
            .free
            .wait_while(rt, self.desk.lock(rt), |desk| desk.is_in_use());
        match desk.connection() {
            Some(connection) => is_in(connection, id, kept),
            None => false,
        }
    }

    /// Writes all that waits, that of this store among it, unless another store has written it or does so now.
    fn write<R: Wait>(&self, rt: &R, alloc: Global, answer: &AtomicU64) {
        let mut desk = self.free.wait_while(rt, self.desk.lock(rt), |desk| {
            desk.is_in_use() && answer.load(Ordering::SeqCst) == PENDING
        });
        if answer.load(Ordering::SeqCst) != PENDING {
            return;
        }
        let Some((mut connection, jobs)) = desk.take(alloc) else {
            return;
        };
        drop(desk);
        let told = if write_all(&mut connection, &jobs) {
            WRITTEN
        } else {
            FAILED
        };
        for job in jobs.iter() {
            job.answer.store(told, Ordering::SeqCst);
        }
        drop(jobs);
        self.desk.lock(rt).put_back(connection);
        self.free.notify_all();
    }
}

// Whether the database has this body for an id, or none.
fn is_in<S: Alter>(connection: &mut Connection<S>, id: &[u8; 32], kept: &Option<Bytes>) -> bool {
    match load_rows(connection, id) {
        Ok(rows) => is_copy(&rows, kept),
        Err(_) => false,
    }
}

/// The refusal, counted where it is none of memory.
fn noted(failures: &mut u64, refusal: Refusal) -> Refusal
    ensures counts_it { ((result ≡ Refusal.Memory) × (failures.new ≡ failures.old))
        ⊎ ((result ≡ Refusal.Store) × HasRisen failures.old failures.new) }
{
    match refusal {
        Refusal::Memory => Refusal::Memory,
        _ => counted(failures),
    }
}

/// A database whose records are those of several stores, each with ids of its own.
#[derive(Drop)]
pub struct SharedDatabase<S: Alter> {
    shared: Arc<Shared<S>>,
}

/// A store of a database that others use too: what several of them save at once is written in one transaction.
#[derive(Drop)]
pub struct SharedStore<S: Alter, R: Wait + Drop> {
    rt: R,
    shared: Arc<Shared<S>>,
    number: u64,
    answer: Arc<AtomicU64>,
    copies: Copies,
    failures: u64,
}

impl<S: Alter + Drop> SharedDatabase<S> {
    ghost use Rattle.std.specs.Prelude.{◌≡◌, IfOk};
    ghost use Rattle.std.specs.FinMap as map;

    /// A database for several stores, none of which is there yet. Error: 60 where there is no memory; the database is
    /// let go then.
    pub(crate) fn new(
        alloc: Global,
        connection: Connection<S>,
        copies: Copies,
    ) -> Result<SharedDatabase<S>, Refusal> {
        let shared = Arc::new(
            alloc,
            Shared {
                desk: Mutex::new(Desk::new(alloc, connection, copies)),
                free: Condvar::new(),
            },
        )?;
        Ok(SharedDatabase { shared })
    }

    /// The connection, where no store of it is left; else it is let go with the last of them. Takes no memory.
    pub fn into_connection(self) -> Option<Connection<S>> {
        Arc::into_inner(self.shared)?.into_connection()
    }

    /// The ids that have a record and no store yet, in rising order. Error: 60 alone.
    pub fn ids<R: Wait>(&self, rt: &R, alloc: Global) -> Result<Vec<[u8; 32]>, Refusal> {
        self.shared.desk.lock(rt).unclaimed(alloc)
    }

    /// A store without records. Takes memory for what it waits by. Error: 60 alone.
    pub fn store<R: Wait + Drop>(&self, rt: R, alloc: Global) -> Result<SharedStore<S, R>, Refusal>
        ensures { IfOk result (λ store. (store.copies ≡ map.empty) × (store.failures ≡ 0)) }
    {
        let answer = Arc::new(alloc, AtomicU64::new(PENDING))?;
        let number = self.shared.desk.lock(&rt).number();
        Ok(SharedStore {
            rt,
            shared: Arc::try_clone(&self.shared)?,
            number,
            answer,
            copies: Copies::new(alloc),
            failures: 0,
        })
    }

    /// A store with the record of this id alone, or with none where there is none; the id is this store's from then on.
    /// Errors: 60; 61 where it is another store's.
    pub fn store_of<R: Wait + Drop>(
        &self,
        rt: R,
        alloc: Global,
        id: &[u8; 32],
    ) -> Result<SharedStore<S, R>, Refusal> {
        let mut store = self.store(rt, alloc)?;
        let record = self.shared.desk.lock(&store.rt).claim(store.number, id)?;
        if let Some(bytes) = record {
            drop(store.copies.put(*id, bytes)?);
        }
        Ok(store)
    }
}

impl<S: Alter + Drop, R: Wait + Drop> SharedStore<S, R> {
    fn write(&self, alloc: Global, id: &[u8; 32], bytes: &[u8]) -> Result<(), Refusal> {
        let job = Job {
            id: *id,
            bytes: Bytes::from_slice(alloc, bytes)?,
            answer: Arc::try_clone(&self.answer)?,
        };
        self.answer.store(PENDING, Ordering::SeqCst);
        self.shared.desk.lock(&self.rt).join(self.number, job)?;
        self.shared.write(&self.rt, alloc, &self.answer);
        if self.answer.load(Ordering::SeqCst) == WRITTEN {
            Ok(())
        } else {
            Err(Refusal::Store)
        }
    }
}

impl<S: Alter + Drop, R: Wait + Drop> RecordStore for SharedStore<S, R> {
    ghost use Rattle.std.specs.Prelude.{◌≡◌, true, IfOk, IfErr, OnOk, OnErr};
    ghost use Rattle.std.specs.FinMap as map;
    ghost use Rattle.ln_store.specs.Store.{CountsFailures};

    ghost store_view = { λ s. record { records = s.copies; failed = s.failures; is_fresh = true } };

    /// Waits until the records that others save now are written, this one with them or after them.
    ///
    /// Errors: 60 where there is no memory, before the database is asked; 61 where it failed, for each record of the
    /// same write, or where the id is another store's. No record has changed then, unless the database is shut: it has
    /// all the old ones or all the new ones.
    fn save(&mut self, alloc: Global, id: &[u8; 32], bytes: &[u8]) -> Result<(), Refusal>
        ensures replaces_the_record { OnOk result (self.new.copies ≡ map.insert self.old.copies id.now bytes.now) }
        ensures leaves_the_old { OnErr result (self.new.copies ≡ self.old.copies) }
        ensures counts_failures { CountsFailures result self.old.failures self.new.failures }
    {
        let kept = Bytes::from_slice(alloc, bytes)?;
        let before = self.copies.put(*id, kept)?;
        match self.write(alloc, id, bytes) {
            Ok(()) => Ok(()),
            Err(refusal) => {
                self.copies.restore(*id, before);
                Err(noted(&mut self.failures, refusal))
            }
        }
    }

    /// The record of an id, as this store saved it last or began with it.
    ///
    /// Errors: 60 where there is no memory, before the database is asked; 61 where it failed, or doesn't have what it
    /// should.
    fn load(&mut self, alloc: Global, id: &[u8; 32]) -> Result<Option<Bytes>, Refusal>
        ensures gives_the_record { IfOk result (λ found. found ≡ map.get self.old.copies id.now) }
        ensures changes_no_record { self.new.copies ≡ self.old.copies }
        ensures counts_failures { CountsFailures result self.old.failures self.new.failures }
    {
        let kept = self.copies.copy_of(id)?;
        if kept.is_none() || self.shared.has(&self.rt, id, &kept) {
            Ok(kept)
        } else {
            Err(counted(&mut self.failures))
        }
    }

    /// Error: 60 alone, where there is no memory.
    fn ids(&mut self, alloc: Global) -> Result<Vec<[u8; 32]>, Refusal>
        ensures gives_each_id_in_order { IfOk result (λ ids. ids.items ≡ map.keys self.old.copies) }
        ensures changes_nothing { self.new ≡ self.old }
        ensures fails_for_memory_alone { IfErr result (λ e. e ≡ Refusal.Memory) }
    {
        self.copies.ids(alloc)
    }

    fn failures(&self) -> u64
        ensures { result ≡ self.now.failures }
    {
        self.failures
    }
}
