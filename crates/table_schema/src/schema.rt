//! Whether a schema is schema 2, and where its trees are.

ghost use Rattle.std.specs.Prelude.{◌≡◌, ◌↔◌, ◌<◌, IsTrue, IfSome, None};
ghost use Rattle.table_schema.specs.Layout.{IsStoreSchema, store_schema, receipts_tree, pools_tree, exceptions_tree};

use crate::parts::is_automatic;
use crate::tables::{
    are_counts, are_exceptions, is_devices, is_info, is_maps, is_pools, is_receipts, is_tenants,
};
use sqlite_schema::schema::{Index, Schema, Table};

/// Where a file has the trees of schema 2.
#[derive(Clone, Copy, Debug, PartialEq, Eq)]
pub enum Layout {
    /// The trees follow one another: the file was made with schema 2, or VACUUM wrote it anew.
    Compact,
    /// There is a gap where the pools of schema 1 were: the file had schema 1.
    Gapped,
}

impl Layout {
    /// Returns the tree of `receipts`.
    pub fn receipts_tree(self) -> u32
        ensures tree { result ≡ receipts_tree self }
        ensures low { result < 20 }
    {
        match self {
            Layout::Compact => 8,
            Layout::Gapped => 11,
        }
    }

    /// Returns the tree of `pools_2`.
    pub fn pools_tree(self) -> u32
        ensures tree { result ≡ pools_tree self }
        ensures low { result < 20 }
    {
        match self {
            Layout::Compact => 10,
            Layout::Gapped => 13,
        }
    }

    /// Returns the tree of `exceptions`.
    pub fn exceptions_tree(self) -> u32
        ensures tree { result ≡ exceptions_tree self }
        ensures low { result < 20 }
    {
        match self {
            Layout::Compact => 13,
            Layout::Gapped => 16,
        }
    }
}

/// Returns whether `tables` are those of schema 2 in `layout`.
fn are_tables(tables: &[Table], layout: Layout) -> bool
    ensures { IsTrue result ↔ tables.now ≡ (store_schema layout).tables }
{
    match tables {
        [
            info,
            tenants,
            counts,
            maps,
            devices,
            receipts,
            pools,
            exceptions,
        ] => {
            if !is_info(info) {
                return false;
            }
            if !is_tenants(tenants) {
                return false;
            }
            if !are_counts(counts) {
                return false;
            }
            if !is_maps(maps) {
                return false;
            }
            if !is_devices(devices) {
                return false;
            }
            if !is_receipts(receipts, layout.receipts_tree()) {
                return false;
            }
            if !is_pools(pools, layout.pools_tree()) {
                return false;
            }
            are_exceptions(exceptions, layout.exceptions_tree())
        }
        _ => false,
    }
}

/// Returns whether `indexes` are those of schema 2 in `layout`.
fn are_indexes(indexes: &[Index], layout: Layout) -> bool
    ensures { IsTrue result ↔ indexes.now ≡ (store_schema layout).indexes }
{
    let pools_tree = layout.pools_tree();
    match indexes {
        [tenants, maps, devices, receipts, pools, names, exceptions] => {
            if !is_automatic(tenants, "sqlite_autoindex_tenants_1", 1, &[2], 1) {
                return false;
            }
            if !is_automatic(maps, "sqlite_autoindex_maps_1", 4, &[1, 2], 1) {
                return false;
            }
            if !is_automatic(devices, "sqlite_autoindex_devices_1", 6, &[1, 2], 1) {
                return false;
            }
            let tree = layout.receipts_tree();
            if !is_automatic(receipts, "sqlite_autoindex_receipts_1", tree, &[1, 2], 1) {
                return false;
            }
            if !is_automatic(pools, "sqlite_autoindex_pools_2_1", pools_tree, &[1, 2], 1) {
                return false;
            }
            if !is_automatic(names, "sqlite_autoindex_pools_2_2", pools_tree, &[1, 3], 2) {
                return false;
            }
            let tree = layout.exceptions_tree();
            is_automatic(
                exceptions,
                "sqlite_autoindex_exceptions_1",
                tree,
                &[1, 2, 3],
                1,
            )
        }
        _ => false,
    }
}

/// Returns whether the schema is schema 2 in `layout`.
pub fn is_laid_out(schema: &Schema, layout: Layout) -> bool
    ensures { IsTrue result ↔ schema.now ≡ store_schema layout }
{
    are_tables(schema.tables.as_slice(), layout)
        && are_indexes(schema.indexes.as_slice(), layout)
        && schema.views.is_empty()
}

/// Returns the layout of the schema, or `None` where it isn't schema 2.
pub fn layout_of(schema: &Schema) -> Option<Layout>
    ensures some { IfSome result (λ layout. schema.now ≡ store_schema layout) }
    ensures none { result ≡ None → ¬ IsStoreSchema schema.now }
{
    if is_laid_out(schema, Layout::Compact) {
        Some(Layout::Compact)
    } else if is_laid_out(schema, Layout::Gapped) {
        Some(Layout::Gapped)
    } else {
        None
    }
}
