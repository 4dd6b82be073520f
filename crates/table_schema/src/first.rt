//! Whether a schema is schema 1, which an opening replaces.

ghost use Rattle.std.specs.Prelude.{◌≡◌, ◌↔◌, IsTrue};
ghost use Rattle.table_schema.specs.Layout.{first_schema};

use crate::parts::is_automatic;
use crate::tables::{
    are_counts, is_devices, is_first_pools, is_info, is_maps, is_receipts, is_tenants,
};
use sqlite_schema::schema::{Index, Schema, Table};

/// Returns whether `tables` are those of schema 1.
fn are_first_tables(tables: &[Table]) -> bool
    ensures { IsTrue result ↔ tables.now ≡ first_schema.tables }
{
    match tables {
        [info, tenants, counts, maps, devices, pools, receipts] => {
            is_info(info)
                && is_tenants(tenants)
                && are_counts(counts)
                && is_maps(maps)
                && is_devices(devices)
                && is_first_pools(pools)
                && is_receipts(receipts, 11)
        }
        _ => false,
    }
}

/// Returns whether `indexes` are those of schema 1.
fn are_first_indexes(indexes: &[Index]) -> bool
    ensures { IsTrue result ↔ indexes.now ≡ first_schema.indexes }
{
    match indexes {
        [tenants, maps, devices, pools, names, receipts] => {
            if !is_automatic(tenants, "sqlite_autoindex_tenants_1", 1, &[2], 1) {
                return false;
            }
            if !is_automatic(maps, "sqlite_autoindex_maps_1", 4, &[1, 2], 1) {
                return false;
            }
            if !is_automatic(devices, "sqlite_autoindex_devices_1", 6, &[1, 2], 1) {
                return false;
            }
            if !is_automatic(pools, "sqlite_autoindex_pools_1", 8, &[1, 2], 1) {
                return false;
            }
            if !is_automatic(names, "sqlite_autoindex_pools_2", 8, &[1, 3], 2) {
                return false;
            }
            is_automatic(receipts, "sqlite_autoindex_receipts_1", 11, &[1, 2], 1)
        }
        _ => false,
    }
}

/// Returns whether the schema is schema 1.
pub fn is_first(schema: &Schema) -> bool
    ensures { IsTrue result ↔ schema.now ≡ first_schema }
{
    are_first_tables(schema.tables.as_slice())
        && are_first_indexes(schema.indexes.as_slice())
        && schema.views.is_empty()
}
