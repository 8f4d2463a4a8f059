//! What becomes of an HTLC.

/// What has become of an offered HTLC.
#[derive(Clone, Copy, PartialEq, Eq)]
pub enum Outcome {
    /// Nothing yet.
    Live,
    /// It was fulfilled: its amount went to the side that it was offered to.
    Fulfilled,
    /// It failed: its amount went back.
    Failed,
}
