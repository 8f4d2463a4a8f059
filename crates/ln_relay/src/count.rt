//! How a seat counts.
ghost use Rattle.std.specs.Prelude.{◌≡◌, ◌+◌};

use std::sync::Wait;

// Waits for ever.
pub(crate) fn never<R: Wait>(rt: &R)
    ensures never_returns { ⊥ }
{
    for _ in rt.forever() {}
    unreachable!()
}

// One more. After 2^64 - 1 it waits for ever, as the queue itself does long before.
pub(crate) fn one_more<R: Wait>(rt: &R, count: u64) -> u64
    ensures is_one_more { result ≡ count + 1 }
{
    if count == u64::MAX {
        never(rt);
    }
    count + 1
}
