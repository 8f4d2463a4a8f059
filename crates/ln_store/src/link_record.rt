//! The record of one end of a channel.

use crate::record::Items;
use std::marker::Model;

/// What is stored of one end of a channel, readable by its type: its items have their forms and fit together.
pub struct LinkRecord {
    items: Items,
}

// By hand: crates above don't prove again how its items are dropped.
impl Drop for LinkRecord {
    fn drop(self) {
        let LinkRecord { items } = self;
        drop(items);
    }
}

impl Model for LinkRecord {
    ghost use Rattle.std.specs.Prelude.{◌≡◌, true};
    ghost use Rattle.ln_store.specs.declared.record.Items.{Items};
    ghost use Rattle.ln_store.specs.Readable.{is_readable};

    ghost Value = { Items };

    ghost view = { λ r. r.items };

    ghost invariant = { λ r. is_readable r.items ≡ true };
}

impl LinkRecord {
    ghost use Rattle.std.specs.Prelude.{◌≡◌, true};
    ghost use Rattle.ln_store.specs.Readable.{is_readable};

    /// The record of these items, which have to be readable. Takes no memory.
    pub fn new(items: Items) -> LinkRecord
        requires { is_readable items ≡ true }
        ensures { result ≡ items }
    {
        LinkRecord { items }
    }

    /// The items. Takes no memory.
    pub fn into_items(self) -> Items
        ensures has_the_items { result ≡ self }
        ensures is_readable { is_readable result ≡ true }
    {
        let LinkRecord { items } = self;
        items
    }

    /// The items.
    pub fn items(&self) -> &Items
        ensures has_the_items { result.now ≡ self.now }
        ensures is_readable { is_readable result.now ≡ true }
    {
        &self.items
    }
}
