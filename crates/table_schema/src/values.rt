//! The values of a tenant's rows, as they are written.

/// A row of `devices`, without the tenant's number.
#[derive(Clone, Copy)]
pub struct StateRow {
    pub device: i64,
    pub reweight: i64,
    pub up: i64,
}

/// A row of `pools_2`, without the tenant's number. `pairs` is the number of the pool's exceptions.
#[derive(Clone, Copy)]
pub struct PoolValues<'a> {
    pub id: i64,
    pub name: &'a str,
    pub erasure: i64,
    pub size: i64,
    pub rule: i64,
    pub pg_num: i64,
    pub pgp_num: i64,
    pub hashpspool: i64,
    pub pairs: i64,
}

/// A row of `exceptions`, without the tenant's number: in the group of the pool the device `to`
/// takes the place of `from`. `place` is its place in the pool's list, from 0.
#[derive(Clone, Copy)]
pub struct ExceptionRow {
    pub pool: i64,
    pub place: i64,
    pub group: i64,
    pub from: i64,
    pub to: i64,
}

/// A row of `receipts`, without the tenant's number.
#[derive(Clone, Copy)]
pub struct ReceiptValues<'a> {
    pub request: &'a str,
    pub path: &'a str,
    pub body: &'a str,
    pub status: i64,
    pub reply: &'a str,
}
