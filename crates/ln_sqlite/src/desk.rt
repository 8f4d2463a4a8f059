//! What the stores of one database share: the database, what waits to be written, and whose each id is.

use crate::copies::Copies;
use crate::together::Job;
use ln_bytes::Bytes;
use ln_refusals::Refusal;
use sqlite::{Alter, Connection};
use std::alloc::Global;
use std::collections::BTreeMap;
use std::mem;

/// What is under the lock.
#[derive(Drop)]
pub(crate) struct Desk<S: Alter> {
    /// None as long as a store uses it.
    connection: Option<Connection<S>>,
    /// What the next write is to write.
    waiting: Vec<Job>,
    /// The records that no store was asked for.
    unclaimed: Copies,
    /// Each id that is a store's, with the number of the store.
    owners: BTreeMap<[u8; 32], u64>,
    stores: u64,
}

impl<S: Alter + Drop> Desk<S> {
    ghost use Rattle.std.specs.Prelude.{◌≡◌, [], ◌∷◌, ◌++◌, Some, OnOk, OnErr, IfSome};

    pub(crate) fn new(alloc: Global, connection: Connection<S>, unclaimed: Copies) -> Desk<S> {
        Desk {
            connection: Some(connection),
            waiting: Vec::new(alloc),
            unclaimed,
            owners: BTreeMap::new(alloc),
            stores: 0,
        }
    }

    /// The number of another store.
    pub(crate) fn number(&mut self) -> u64 {
        self.stores = self.stores.saturating_add(1);
        self.stores
    }

    /// The ids that have a record and no store, in rising order.
    pub(crate) fn unclaimed(&self, alloc: Global) -> Result<Vec<[u8; 32]>, Refusal> {
        self.unclaimed.ids(alloc)
    }

    /// Makes an id this store's, with the record that it has. Error 61: it is another store's.
    pub(crate) fn claim(&mut self, store: u64, id: &[u8; 32]) -> Result<Option<Bytes>, Refusal>
        ensures adds_nothing { self.new.waiting.items ≡ self.old.waiting.items }
    {
        match self.owners.get(id) {
            Some(owner) if *owner == store => {}
            Some(_) => return Err(Refusal::Store),
            None => drop(self.owners.insert(*id, store)?),
        }
        Ok(self.unclaimed.take_out(id))
    }

    fn is_of(&self, store: u64, id: &[u8; 32]) -> bool {
        match self.owners.get(id) {
            Some(owner) => *owner == store,
            None => self.unclaimed.find(id).is_none(),
        }
    }

    /// Adds what a store has to write. Error 61: the id is another store's.
    pub(crate) fn join(&mut self, store: u64, job: Job) -> Result<(), Refusal>
        ensures adds { OnOk result (self.new.waiting.items ≡ self.old.waiting.items ++ job ∷ []) }
        ensures adds_nothing { OnErr result (self.new.waiting.items ≡ self.old.waiting.items) }
    {
        if !self.is_of(store, &job.id) {
            return Err(Refusal::Store);
        }
        drop(self.claim(store, &job.id)?);
        self.waiting.push(job)?;
        Ok(())
    }

    pub(crate) fn is_in_use(&self) -> bool {
        self.connection.is_none()
    }

    /// Takes the database and what waits, where no store uses it.
    pub(crate) fn take(&mut self, alloc: Global) -> Option<(Connection<S>, Vec<Job>)>
        ensures takes_all { IfSome result (λ it. (self.old.connection ≡ Some it.0)
            × (it.1.items ≡ self.old.waiting.items) × (self.new.waiting.items ≡ [])) }
    {
        let connection = self.connection.take()?;
        Some((connection, mem::replace(&mut self.waiting, Vec::new(alloc))))
    }

    pub(crate) fn put_back(&mut self, connection: Connection<S>) {
        self.connection = Some(connection);
    }

    pub(crate) fn connection(&mut self) -> Option<&mut Connection<S>> {
        self.connection.as_mut()
    }

    pub(crate) fn into_connection(self) -> Option<Connection<S>> {
        self.connection
    }
}
