//! A store over a file.

use crate::sql_store::SqliteStore;
use ln_bytes::Bytes;
use ln_refusals::Refusal;
use ln_store::RecordStore;
use sqlite::{Alter, Connection, FileStore};
use sqlite_std_file::File;
use std::alloc::Global;

/// The records in a file. A type without parameters, whose drop is one call: what is generic in stores, as a node, is
/// proved for it at little cost.
pub struct FileRecords {
    /// The store over the file's database.
    pub store: SqliteStore<FileStore<File>>,
}

impl Drop for FileRecords {
    fn drop(self) {
        let FileRecords { store } = self;
        drop(store);
    }
}

// A store over a database, or why there is none: the connection is let go.
fn over<S: Alter + Drop>(
    alloc: Global,
    connection: Connection<S>,
) -> Result<SqliteStore<S>, Refusal> {
    match SqliteStore::over(alloc, connection) {
        Ok(store) => Ok(store),
        Err((refusal, _)) => Err(refusal),
    }
}

impl FileRecords {
    ghost use Rattle.std.specs.Prelude.{◌≡◌};

    /// The records in the file at this path, which is made where there is none: it reads all of them once.
    ///
    /// Errors: 61 where the file can't be opened or is open elsewhere, or its database is refused by
    /// `SqliteStore::over`; 60 where there is no memory, and each row is a record.
    pub fn open(rt: &HostRuntime, path: &str) -> Result<FileRecords, Refusal> {
        let Ok(connection) = Connection::open(rt, path) else {
            return Err(Refusal::Store);
        };
        let store = over(rt.alloc(), connection)?;
        Ok(FileRecords { store })
    }

    /// The store, whose `into_connection` gives what has to be closed. Takes no memory.
    pub fn into_store(self) -> SqliteStore<FileStore<File>>
        ensures { result ≡ self.store }
    {
        let FileRecords { store } = self;
        store
    }
}

impl RecordStore for FileRecords {
    ghost use Rattle.std.specs.Prelude.{true};

    ghost store_view = { λ s. record { records = s.store.copies; failed = s.store.failures; is_fresh = true } };

    fn save(&mut self, alloc: Global, id: &[u8; 32], bytes: &[u8]) -> Result<(), Refusal> {
        self.store.save(alloc, id, bytes)
    }

    fn load(&mut self, alloc: Global, id: &[u8; 32]) -> Result<Option<Bytes>, Refusal> {
        self.store.load(alloc, id)
    }

    fn ids(&mut self, alloc: Global) -> Result<Vec<[u8; 32]>, Refusal> {
        self.store.ids(alloc)
    }

    fn failures(&self) -> u64 {
        self.store.failures
    }
}
