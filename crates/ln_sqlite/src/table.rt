//! Which database a store can be over.

ghost use Rattle.std.specs.Prelude.{◌≡◌, IsTrue, None, [], ◌∷◌, false};
ghost use Rattle.ln_sqlite.specs.Table.{column, columns, records, index, schema, none};

use sqlite::types::Value;
use sqlite_schema::schema::{Column, Index, Kind, Schema, Stamps, Table};
use sqlite_value::keys::Collation;

fn is_column(it: &Column, name: &[u8], not_null: bool) -> bool
    ensures { IsTrue result → it.now ≡ column name.now not_null }
{
    it.name.as_slice() == name
        && it.kind == Kind::Any
        && !it.is_strict
        && it.not_null == not_null
        && matches!(it.default, Value::Null)
        && it.collation == Collation::Binary
}

fn are_columns(them: &[Column]) -> bool
    ensures { IsTrue result → them.now ≡ columns }
{
    match them {
        [id, body] => is_column(id, b"id", false) && is_column(body, b"body", true),
        _ => false,
    }
}

/// Whether these places are that of the id alone.
fn are_the_id(places: &[usize]) -> bool
    ensures { IsTrue result → places.now ≡ 1 ∷ [] }
{
    match places {
        [place] => *place == 1,
        _ => false,
    }
}

fn has_the_key(it: &Table) -> bool
    ensures { IsTrue result → (it.now.key ≡ None) × (it.now.primary ≡ 1 ∷ []) × (it.now.uniques ≡ (1 ∷ []) ∷ [])
        × (it.now.orders ≡ record { digits = 0 } ∷ []) }
{
    match (it.uniques.as_slice(), it.orders.as_slice()) {
        ([unique], [order]) => {
            it.key.is_none()
                && are_the_id(it.primary.as_slice())
                && are_the_id(unique.as_slice())
                && order.digits == 0
        }
        _ => false,
    }
}

fn are_no_stamps(it: &Stamps) -> bool
    ensures { IsTrue result → it.now ≡ record { places = []; terms = []; formats = [] } }
{
    it.places.is_empty() && it.terms.roots.is_empty() && it.formats.is_empty()
}

fn has_no_rule(it: &Table) -> bool
    ensures { IsTrue result → (it.now.checks ≡ []) × (it.now.references ≡ []) × (it.now.computed ≡ [])
        × (it.now.stamps ≡ record { places = []; terms = []; formats = [] }) × (it.now.is_counted ≡ false) }
{
    it.checks.roots.is_empty()
        && it.references.is_empty()
        && it.computed.is_empty()
        && are_no_stamps(&it.stamps)
        && !it.is_counted
}

fn is_table(it: &Table) -> bool
    ensures { IsTrue result → it.now ≡ records }
{
    it.name.as_slice() == b"records".as_slice()
        && it.tree == 0
        && are_columns(it.columns.as_slice())
        && has_the_key(it)
        && has_no_rule(it)
}

fn is_index(it: &Index) -> bool
    ensures { IsTrue result → it.now ≡ index }
{
    it.name.as_slice() == b"sqlite_autoindex_records_1".as_slice()
        && it.tree == 1
        && it.table == 0
        && are_the_id(it.columns.as_slice())
        && it.order.digits == 0
        && it.is_unique
}

/// Whether a database has the table of records, with the index of its key, and nothing else.
pub(crate) fn is_table_of_records(it: &Schema) -> bool
    ensures { IsTrue result → it.now ≡ schema }
{
    match (it.tables.as_slice(), it.indexes.as_slice()) {
        ([table], [index]) => it.views.is_empty() && is_table(table) && is_index(index),
        _ => false,
    }
}

/// Whether a database has nothing.
pub(crate) fn is_empty(it: &Schema) -> bool
    ensures { IsTrue result → it.now ≡ none }
{
    it.tables.is_empty() && it.indexes.is_empty() && it.views.is_empty()
}
