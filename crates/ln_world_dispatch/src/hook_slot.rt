//! Slots of hooks.

/// A hook that is registered with a dispatcher.
#[derive(Clone, Copy, PartialEq, Eq)]
pub struct HookSlot {
    /// Its place in the list of hooks that was handed in.
    pub hook: usize,
    /// The number of the first event that it serves.
    pub place: u64,
}
