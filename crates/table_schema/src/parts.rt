//! Parts of a schema: names, columns, keys, references and indexes.

ghost use Rattle.std.specs.Prelude.{◌≡◌, ◌↔◌, ◌+◌, ◌<◌, true, [], ◌∷◌, IsTrue};
ghost use Rattle.sqlite_value.specs.declared.value.Value.TheVariants.{Null};
ghost use Rattle.sqlite_value.specs.declared.keys.Collation.TheVariants.{Binary};
ghost use Rattle.sqlite_value.specs.Keys.{plain};
ghost use Rattle.table_schema.specs.Layout.{needed, loose, to_tenant, no_stamps};

use sqlite::types::Value;
use sqlite_items::Items;
use sqlite_schema::code::Terms;
use sqlite_schema::schema::{Action, Column, Index, Kind, Reference, Stamps};
use sqlite_value::keys::{Collation, Order};
use sqlite_value::value::Bytes;

/// Returns whether `name` has the bytes of `text`.
pub fn is_name(name: &Bytes, text: &str) -> bool
    ensures { IsTrue result ↔ name.now ≡ text.now }
{
    name.as_slice() == text.as_bytes()
}

/// Returns whether `places` are those in `expected`, in the same order.
pub fn are_places(places: &Items<usize>, expected: &[usize]) -> bool
    ensures { IsTrue result ↔ places.now ≡ expected.now }
{
    places.as_slice() == expected
}

/// Returns whether `column` has `name` and `kind`, in a STRICT table, and is NOT NULL.
pub fn is_needed(column: &Column, name: &str, kind: Kind) -> bool
    ensures { IsTrue result ↔ column.now ≡ needed name.now kind }
{
    is_name(&column.name, name)
        && column.kind == kind
        && column.is_strict
        && column.not_null
        && matches!(column.default, Value::Null)
        && column.collation == Collation::Binary
}

/// Returns whether `column` has `name` and no type.
pub fn is_loose(column: &Column, name: &str) -> bool
    ensures { IsTrue result ↔ column.now ≡ loose name.now }
{
    is_name(&column.name, name)
        && column.kind == Kind::Any
        && !column.is_strict
        && !column.not_null
        && matches!(column.default, Value::Null)
        && column.collation == Collation::Binary
}

/// Returns whether `reference` is the one that a tenant's rows have.
pub fn is_to_tenant(reference: &Reference) -> bool
    ensures { IsTrue result ↔ reference.now ≡ to_tenant }
{
    are_places(&reference.columns, &[1])
        && is_name(&reference.parent, "tenants")
        && match reference.parent_columns.as_slice() {
            [column] => is_name(column, "id"),
            _ => false,
        }
        && reference.on_delete == Action::Cascade
        && reference.on_update == Action::NoAction
        && !reference.is_deferred
}

/// Returns whether `terms` has no term.
pub fn are_no_terms(terms: &Terms) -> bool
    ensures { IsTrue result ↔ terms.now ≡ [] }
{
    terms.roots.is_empty()
}

/// Returns whether `keys` has one key, of the columns at `places`.
pub fn is_one_key(keys: &Items<Items<usize>>, places: &[usize]) -> bool
    ensures { IsTrue result ↔ keys.now ≡ places.now ∷ [] }
{
    match keys.as_slice() {
        [key] => are_places(key, places),
        _ => false,
    }
}

/// Returns whether there is one order, in which each column ascends by its bytes.
pub fn is_one_plain(orders: &Items<Order>) -> bool
    ensures { IsTrue result ↔ orders.now ≡ plain ∷ [] }
{
    match orders.as_slice() {
        [order] => order.digits == 0,
        _ => false,
    }
}

/// Returns whether no default reads the time.
pub fn are_no_stamps(stamps: &Stamps) -> bool
    ensures { IsTrue result ↔ stamps.now ≡ no_stamps }
{
    stamps.places.is_empty() && are_no_terms(&stamps.terms) && stamps.formats.is_empty()
}

/// Returns whether `references` has one reference, the one that a tenant's rows have.
pub fn is_one_reference(references: &Items<Reference>) -> bool
    ensures { IsTrue result ↔ references.now ≡ to_tenant ∷ [] }
{
    match references.as_slice() {
        [reference] => is_to_tenant(reference),
        _ => false,
    }
}

/// Returns whether `index` is the one that SQLite makes for a table's key, in the tree that is
/// `behind` trees after the table's.
pub fn is_automatic(index: &Index, name: &str, table: u32, places: &[usize], behind: u32) -> bool
    requires { table + behind < 65536 }
    ensures { IsTrue result ↔ index.now ≡ record { name = name.now; tree = table + behind; table = table; columns = places.now; order = plain; is_unique = true } }
{
    is_name(&index.name, name)
        && index.tree == table + behind
        && index.table == table
        && are_places(&index.columns, places)
        && index.order.digits == 0
        && index.is_unique
}

/// Returns whether there are two orders, in which each column ascends by its bytes.
pub fn are_two_plain(orders: &Items<Order>) -> bool
    ensures { IsTrue result ↔ orders.now ≡ plain ∷ plain ∷ [] }
{
    match orders.as_slice() {
        [first, second] => first.digits == 0 && second.digits == 0,
        _ => false,
    }
}
