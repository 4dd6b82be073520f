//! The columns of each table, in its order. A new column is a line here.

ghost use Rattle.std.specs.Prelude.{◌≡◌, ◌↔◌, map, IsTrue};
ghost use Rattle.table_schema.specs.Layout.{needed, sequence_table};

use crate::parts::{is_loose, is_needed};
use sqlite_schema::schema::{Column, Kind};

pub const INFO: [(&str, Kind); 2] = [("one", Kind::Integer), ("version", Kind::Integer)];

pub const TENANTS: [(&str, Kind); 3] = [
    ("id", Kind::Integer),
    ("name", Kind::Text),
    ("epoch", Kind::Integer),
];

pub const MAPS: [(&str, Kind); 3] = [
    ("tenant", Kind::Integer),
    ("version", Kind::Integer),
    ("text", Kind::Text),
];

pub const DEVICES: [(&str, Kind); 4] = [
    ("tenant", Kind::Integer),
    ("device", Kind::Integer),
    ("reweight", Kind::Integer),
    ("up", Kind::Integer),
];

/// The columns of `pools` of schema 1.
pub const FIRST_POOLS: [(&str, Kind); 9] = [
    ("tenant", Kind::Integer),
    ("id", Kind::Integer),
    ("name", Kind::Text),
    ("erasure", Kind::Integer),
    ("size", Kind::Integer),
    ("rule", Kind::Integer),
    ("pg_num", Kind::Integer),
    ("pgp_num", Kind::Integer),
    ("hashpspool", Kind::Integer),
];

/// The columns of `pools_2`.
pub const POOLS: [(&str, Kind); 10] = [
    ("tenant", Kind::Integer),
    ("id", Kind::Integer),
    ("name", Kind::Text),
    ("erasure", Kind::Integer),
    ("size", Kind::Integer),
    ("rule", Kind::Integer),
    ("pg_num", Kind::Integer),
    ("pgp_num", Kind::Integer),
    ("hashpspool", Kind::Integer),
    ("pairs", Kind::Integer),
];

pub const EXCEPTIONS: [(&str, Kind); 6] = [
    ("tenant", Kind::Integer),
    ("pool", Kind::Integer),
    ("place", Kind::Integer),
    ("grp", Kind::Integer),
    ("src", Kind::Integer),
    ("dst", Kind::Integer),
];

pub const RECEIPTS: [(&str, Kind); 6] = [
    ("tenant", Kind::Integer),
    ("request", Kind::Text),
    ("path", Kind::Text),
    ("body", Kind::Text),
    ("status", Kind::Integer),
    ("reply", Kind::Text),
];

/// Returns whether `columns` have the names and kinds of `expected`, in a STRICT table, and each is
/// NOT NULL.
pub fn are_needed(columns: &[Column], expected: &[(&str, Kind)]) -> bool
    ensures { IsTrue result ↔ columns.now ≡ map (λ row. needed row.0.now row.1) expected.now }
{
    let mut left = columns;
    let mut rest = expected;
    while let [(name, kind), others @ ..] = rest {
        let [column, further @ ..] = left else {
            return false;
        };
        if !is_needed(column, name, *kind) {
            return false;
        }
        left = further;
        rest = others;
    }
    left.is_empty()
}

/// Returns whether the columns are those of SQLite's own table of counts.
pub fn are_columns_of_counts(columns: &[Column]) -> bool
    ensures { IsTrue result ↔ columns.now ≡ sequence_table.columns }
{
    match columns {
        [name, seq] => is_loose(name, "name") && is_loose(seq, "seq"),
        _ => false,
    }
}
