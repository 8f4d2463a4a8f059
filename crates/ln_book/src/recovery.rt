//! What a book begins with after a restart, and what it asks after a lost connection: read off channels and records.

pub(crate) mod channel;
pub(crate) mod kept;
pub(crate) mod laws;
pub(crate) mod leg;
pub(crate) mod rebuild;
pub(crate) mod snapshot;
