//! The answerer of pings.

pub(crate) mod answer;
pub(crate) mod counted;
pub(crate) mod outgoing;
pub(crate) mod window;
