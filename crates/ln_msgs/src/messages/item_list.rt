//! The values of a message's fields, one after the other.

use crate::messages::item::Item;
use std::marker::Model;

/// The most fields that a message has.
const MOST_FIELDS: usize = 18;

/// The values of a message's fields in their order, which contracts see as a list.
#[derive(Drop)]
pub(crate) struct Items<'a> {
    items: [Item<'a>; MOST_FIELDS],
    count: usize,
}

impl<'a> Model for Items<'a> {
    ghost use Rattle.std.specs.Prelude.{List, take, ◌≤◌};
    ghost use Rattle.ln_msgs.specs.declared.messages.item.Item.{Item};
    ghost use Rattle.ln_msgs.specs.declared.messages.item_list.TheConstants.{MOST_FIELDS};

    ghost Value = { List Item };

    ghost view = { λ i. take i.count i.items };

    ghost invariant = { λ i. i.count ≤ MOST_FIELDS };
}

impl<'a> Items<'a> {
    ghost use Rattle.std.specs.Prelude.{◌≡◌, ◌≤◌, length};

    /// These values.
    pub(crate) fn of(list: &[Item<'a>]) -> Items<'a>
        requires { length list.now ≤ MOST_FIELDS }
        ensures { result ≡ list.now }
    {
        let mut items = [Item::U8(0); MOST_FIELDS];
        let count = list.len();
        items[..count].copy_from_slice(list);
        Items { items, count }
    }

    /// The values in order.
    pub(crate) fn as_slice(&self) -> &[Item<'a>]
        ensures { result.now ≡ self.now }
    {
        &self.items[..self.count]
    }
}
