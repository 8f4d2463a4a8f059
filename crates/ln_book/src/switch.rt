//! What stands between the ends of a node's channels and its book: handles, which know all that was said through them.

pub(crate) mod answers;
pub(crate) mod handle;
pub(crate) mod laws;
pub(crate) mod saying;
pub(crate) mod snapshots;
pub(crate) mod uses;
