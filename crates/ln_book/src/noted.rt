//! What a book began with, and what was entered since.

use ln_book_tables::{Decided, Entry, Key, Resumed, Tables};
use ln_history::Past;
use ln_hooks::How;
use std::marker::Model;

/// An entry, by pasts that begin with what it has: nothing is copied for it.
#[derive(Drop)]
pub(crate) enum Note {
    /// This entry.
    Entered(Past<Entry, ()>),
    /// An event was decided.
    Decided(Past<Decided, ()>),
    /// What is held was decided.
    Resumed(Past<Resumed, ()>),
    /// What has become of an own HTLC is irrevocably committed.
    Resolved(Key, Past<How, ()>),
}

/// What a book began with, and what was entered since: proofs alone read it. It takes no memory, and its methods do
/// nothing at run time. Contracts see the history.
#[derive(Drop)]
pub(crate) struct Noted {
    past: Past<Tables, Note>,
}

impl Model for Noted {
    ghost use Rattle.ln_book_tables.specs.declared.entry.Entry.{Entry};
    ghost use Rattle.ln_history.specs.History.{History};
    ghost use Rattle.ln_book_tables.specs.Replay.{Table};
    ghost use Rattle.ln_book.specs.Noted.{history_of};

    ghost Value = { History Table Entry };

    ghost view = { λ n. history_of n.past.told };
}

impl Noted {
    ghost use Rattle.std.specs.Prelude.{◌≡◌};
    ghost use Rattle.ln_book_tables.specs.declared.entry.Entry.TheVariants as entry;
    ghost use Rattle.ln_history.specs.History.{begun_with, with_entry};
    ghost use Rattle.ln_book.specs.Noted.{entry_of};

    /// It began with these, and nothing was entered.
    pub(crate) fn begun(tables: &Tables) -> Noted
        ensures { result ≡ begun_with tables.now }
    {
        let past = Past::begun(tables);
        Noted { past }
    }

    // One entry more.
    fn and(&self, note: Note) -> Noted
        ensures { result ≡ with_entry (entry_of note) self.now }
    {
        let past = self.past.and(&note);
        Noted { past }
    }

    /// This was entered.
    pub(crate) fn entered(&self, entry: &Entry) -> Noted
        ensures { result ≡ with_entry entry.now self.now }
    {
        self.and(Note::Entered(Past::begun(entry)))
    }

    /// An event was decided.
    pub(crate) fn decided(&self, decided: &Decided) -> Noted
        ensures { result ≡ with_entry (entry.Decided decided.now) self.now }
    {
        self.and(Note::Decided(Past::begun(decided)))
    }

    /// What is held was decided.
    pub(crate) fn resumed(&self, resumed: &Resumed) -> Noted
        ensures { result ≡ with_entry (entry.Resumed resumed.now) self.now }
    {
        self.and(Note::Resumed(Past::begun(resumed)))
    }

    /// What has become of an own HTLC is irrevocably committed.
    pub(crate) fn resolved(&self, key: Key, how: &How) -> Noted
        ensures { result ≡ with_entry (entry.Resolved key how.now) self.now }
    {
        self.and(Note::Resolved(key, Past::begun(how)))
    }
}
