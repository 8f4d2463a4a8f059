//! The book of a node, behind its lock. No clause can name what a lock has: so a book is made and locked here alone, as
//! checks/lint sees to.

ghost use Rattle.std.specs.Prelude.{◌≡◌, IfOk};
ghost use Rattle.ln_history.specs.History.{begun_with};
ghost use Rattle.ln_book_tables.specs.Replay.{no_table};
ghost use Rattle.ln_book.specs.Rebuild.{rebuilt};

use ln_book::{Book, ChannelSnapshot};
use ln_refusals::Refusal;
use std::alloc::Global;
use std::snapshot::Snapshot;
use std::sync::Mutex;

/// The book of a node, behind its lock.
#[derive(Drop)]
pub(crate) struct NodeBook {
    /// The book.
    pub(crate) kept: Mutex<Book>,
    /// The book as it began, for proofs alone.
    pub(crate) begun: Snapshot<Book>,
}

// A book that begins with what channels have of payments. Error: 60 alone.
fn begun(alloc: Global, snapshots: &[ChannelSnapshot]) -> Result<Book, Refusal>
    ensures begins_with_all { IfOk result (λ b. b ≡ begun_with (rebuilt no_table snapshots.now)) }
{
    let mut book = Book::new(alloc);
    match book.rebuild(alloc, snapshots) {
        Ok(()) => Ok(book),
        Err(refusal) => Err(refusal),
    }
}

impl NodeBook {
    /// One that begins with what its node's channels have of payments. Takes memory. Error: 60 alone.
    pub(crate) fn new(alloc: Global, snapshots: &[ChannelSnapshot]) -> Result<NodeBook, Refusal>
        ensures begins_with_all { IfOk result (λ b. b.begun.value ≡ begun_with (rebuilt no_table snapshots.now)) }
    {
        let book = begun(alloc, snapshots)?;
        let begun = Snapshot::of(&book);
        let kept = Mutex::new(book);
        Ok(NodeBook { kept, begun })
    }
}
