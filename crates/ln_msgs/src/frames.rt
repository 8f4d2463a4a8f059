//! Messages on a stream of frames.

pub(crate) mod frame;
pub(crate) mod framer;
