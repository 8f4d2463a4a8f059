//! One end of a channel: its link, its store, and the messages in flight to it.

use ln_bytes::{Bytes, Fault};
use ln_keys::ToyKeys;
use ln_link::Link;
use ln_msgs::{Message, encode, fits};
use ln_refusals::Refusal;
use ln_store::{MemoryStore, RecordStore};
use ln_tests_ends::FailingStore;
use std::alloc::{AllocError, Global};
use std::collections::VecDeque;

/// The id of the channel: that of the output 258 of a transaction whose id is 32 bytes 9.
pub const CHANNEL: [u8; 32] = [
    9, 9, 9, 9, 9, 9, 9, 9, 9, 9, 9, 9, 9, 9, 9, 9, 9, 9, 9, 9, 9, 9, 9, 9, 9, 9, 9, 9, 9, 9, 8, 11,
];

/// One end. What is in flight to it stands as bytes, the oldest first.
#[derive(Drop)]
pub struct End {
    pub name: char,
    pub keys: ToyKeys,
    pub link: Box<Link<ToyKeys>>,
    pub store: Box<FailingStore<MemoryStore>>,
    pub inbox: VecDeque<Bytes>,
}

/// The bytes of a message; none of one that can't be written.
pub fn written(alloc: Global, message: &Message) -> Result<Option<Vec<u8>>, AllocError> {
    if !fits(message) {
        return Ok(None);
    }
    match encode(alloc, message) {
        Ok(bytes) => Ok(Some(bytes)),
        Err(Fault::Memory) => Err(AllocError),
        Err(_) => Ok(None),
    }
}

impl End {
    /// An end with nothing in flight to it, and no record. No save of it fails.
    pub fn new(
        alloc: Global,
        name: char,
        keys: ToyKeys,
        link: Box<Link<ToyKeys>>,
    ) -> Result<Box<End>, AllocError> {
        let store = FailingStore::new(MemoryStore::new(alloc), u64::MAX, false);
        let store = Box::new(alloc, store)?;
        let inbox = VecDeque::new(alloc);
        Ok(Box::new(
            alloc,
            End {
                name,
                keys,
                link,
                store,
                inbox,
            },
        )?)
    }

    /// A message is in flight to it, or lost where it has no connection.
    pub fn reach(&mut self, bytes: Vec<u8>) -> Result<(), AllocError> {
        if self.link.channel_machine().connection().is_down() {
            return Ok(());
        }
        Ok(self.inbox.push_back(Bytes::new(bytes))?)
    }

    /// It loses its connection, and what is in flight to it.
    pub fn fall(&mut self) {
        self.link.drop_connection();
        self.inbox.clear();
    }

    /// It halts, and loses what is in flight to it.
    pub fn halt(&mut self) {
        self.link.halt();
        self.inbox.clear();
    }

    /// Its record; none where it has none.
    pub fn record(&mut self, alloc: Global) -> Result<Option<Bytes>, Refusal> {
        let ids = self.store.ids(alloc)?;
        match ids.as_slice().first() {
            None => Ok(None),
            Some(id) => self.store.load(alloc, id),
        }
    }

    /// Its link comes back from its record; not where there is none.
    pub fn load(&mut self, alloc: Global) -> Result<bool, Refusal> {
        let Some(bytes) = self.record(alloc)? else {
            return Ok(false);
        };
        let link = Link::from_record(alloc, self.keys, bytes.as_slice())?;
        self.link = Box::new(alloc, link)?;
        self.inbox.clear();
        Ok(true)
    }
}
