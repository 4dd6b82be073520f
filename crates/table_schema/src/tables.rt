//! Whether tables are this service's, in the trees where a schema has them.

ghost use Rattle.std.specs.Prelude.{◌≡◌, ◌↔◌, [], ◌∷◌, IsTrue};
ghost use Rattle.table_schema.specs.Layout.{no_stamps, child, placed, info_table, tenants_table, sequence_table, maps_table, devices_table, first_pools_table, pools_table, exceptions_table, receipts_table};

use crate::columns::{
    DEVICES, EXCEPTIONS, FIRST_POOLS, INFO, MAPS, POOLS, RECEIPTS, TENANTS, are_columns_of_counts,
    are_needed,
};
use crate::one_test::is_one_test;
use crate::parts::{
    are_no_stamps, are_no_terms, are_places, are_two_plain, is_name, is_one_key, is_one_plain,
    is_one_reference,
};
use sqlite_items::Items;
use sqlite_schema::schema::Table;

/// Returns whether `table` is one of tenants' rows with `name`, `tree` and the primary key
/// `primary`. Its columns and its UNIQUE keys are not tested.
fn is_child(table: &Table, name: &str, tree: u32, primary: &[usize]) -> bool
    ensures { IsTrue result ↔ table.now ≡ child name.now tree table.now.columns primary.now table.now.uniques table.now.orders }
{
    is_name(&table.name, name)
        && table.tree == tree
        && table.key.is_none()
        && are_places(&table.primary, primary)
        && are_no_terms(&table.checks)
        && is_one_reference(&table.references)
        && table.computed.is_empty()
        && are_no_stamps(&table.stamps)
        && !table.is_counted
}

/// Returns whether the table is `maps`.
pub fn is_maps(table: &Table) -> bool
    ensures { IsTrue result ↔ table.now ≡ placed 4 maps_table }
{
    is_child(table, "maps", 4, &[1, 2])
        && are_needed(table.columns.as_slice(), &MAPS)
        && is_one_key(&table.uniques, &[1, 2])
        && is_one_plain(&table.orders)
}

/// Returns whether the table is `devices`.
pub fn is_devices(table: &Table) -> bool
    ensures { IsTrue result ↔ table.now ≡ placed 6 devices_table }
{
    is_child(table, "devices", 6, &[1, 2])
        && are_needed(table.columns.as_slice(), &DEVICES)
        && is_one_key(&table.uniques, &[1, 2])
        && is_one_plain(&table.orders)
}

/// Returns whether the table is `receipts` in `tree`.
pub fn is_receipts(table: &Table, tree: u32) -> bool
    ensures { IsTrue result ↔ table.now ≡ placed tree receipts_table }
{
    is_child(table, "receipts", tree, &[1, 2])
        && are_needed(table.columns.as_slice(), &RECEIPTS)
        && is_one_key(&table.uniques, &[1, 2])
        && is_one_plain(&table.orders)
}

/// Returns whether `keys` are those of pools.
fn are_keys_of_pools(keys: &Items<Items<usize>>) -> bool
    ensures { IsTrue result ↔ keys.now ≡ pools_table.uniques }
{
    match keys.as_slice() {
        [first, second] => are_places(first, &[1, 2]) && are_places(second, &[1, 3]),
        _ => false,
    }
}

/// Returns whether the table is `pools` of schema 1.
pub fn is_first_pools(table: &Table) -> bool
    ensures { IsTrue result ↔ table.now ≡ placed 8 first_pools_table }
{
    is_child(table, "pools", 8, &[1, 2])
        && are_needed(table.columns.as_slice(), &FIRST_POOLS)
        && are_keys_of_pools(&table.uniques)
        && are_two_plain(&table.orders)
}

/// Returns whether the table is `pools_2` in `tree`.
pub fn is_pools(table: &Table, tree: u32) -> bool
    ensures { IsTrue result ↔ table.now ≡ placed tree pools_table }
{
    is_child(table, "pools_2", tree, &[1, 2])
        && are_needed(table.columns.as_slice(), &POOLS)
        && are_keys_of_pools(&table.uniques)
        && are_two_plain(&table.orders)
}

/// Returns whether the table is `exceptions` in `tree`.
pub fn are_exceptions(table: &Table, tree: u32) -> bool
    ensures { IsTrue result ↔ table.now ≡ placed tree exceptions_table }
{
    is_child(table, "exceptions", tree, &[1, 2, 3])
        && are_needed(table.columns.as_slice(), &EXCEPTIONS)
        && is_one_key(&table.uniques, &[1, 2, 3])
        && is_one_plain(&table.orders)
}

/// Returns whether the table refers to none, and no default of it is computed.
fn is_alone(table: &Table) -> bool
    ensures { IsTrue result ↔ ((table.now.references ≡ []) × ((table.now.computed ≡ []) × (table.now.stamps ≡ no_stamps))) }
{
    table.references.is_empty() && table.computed.is_empty() && are_no_stamps(&table.stamps)
}

/// Returns whether the table is `schema_info`.
pub fn is_info(table: &Table) -> bool
    ensures { IsTrue result ↔ table.now ≡ info_table }
{
    is_name(&table.name, "schema_info")
        && table.tree == 0
        && are_needed(table.columns.as_slice(), &INFO)
        && table.key == Some(0)
        && are_places(&table.primary, &[0])
        && table.uniques.is_empty()
        && table.orders.is_empty()
        && is_one_test(&table.checks)
        && is_alone(table)
        && !table.is_counted
}

/// Returns whether the table is `tenants`.
pub fn is_tenants(table: &Table) -> bool
    ensures { IsTrue result ↔ table.now ≡ placed 1 tenants_table }
{
    is_name(&table.name, "tenants")
        && table.tree == 1
        && are_needed(table.columns.as_slice(), &TENANTS)
        && table.key == Some(0)
        && are_places(&table.primary, &[0])
        && is_one_key(&table.uniques, &[2])
        && is_one_plain(&table.orders)
        && are_no_terms(&table.checks)
        && is_alone(table)
        && table.is_counted
}

/// Returns whether the table is SQLite's own table of counts.
pub fn are_counts(table: &Table) -> bool
    ensures { IsTrue result ↔ table.now ≡ placed 3 sequence_table }
{
    is_name(&table.name, "sqlite_sequence")
        && table.tree == 3
        && are_columns_of_counts(table.columns.as_slice())
        && table.key.is_none()
        && table.primary.is_empty()
        && table.uniques.is_empty()
        && table.orders.is_empty()
        && are_no_terms(&table.checks)
        && is_alone(table)
        && !table.is_counted
}
