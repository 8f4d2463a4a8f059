//! How the bytes of a message are read and written.

pub(crate) mod checking;
pub(crate) mod decoding;
pub(crate) mod encoding;
pub(crate) mod field;
pub(crate) mod fitting;
pub(crate) mod opening;
