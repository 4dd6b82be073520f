//! Pools, written shortly.

use crush_map::Text;
use crush_pool::{Pool, PoolParts};
use std::alloc::Global;
use std::test::Fail;

/// The parts of a pool.
#[derive(Clone, Copy)]
pub struct Short {
    pub id: u32,
    pub name: &'static str,
    pub erasure: bool,
    pub size: u32,
    pub rule: u32,
    pub pg_num: u32,
    pub pgp_num: u32,
    pub hashpspool: bool,
}

/// A pool of 12 groups, each of one device.
pub const TWELVE: Short = Short {
    id: 1,
    name: "rbd",
    erasure: false,
    size: 1,
    rule: 0,
    pg_num: 12,
    pgp_num: 12,
    hashpspool: false,
};

/// A pool of two groups.
pub const OF_TWO: Short = Short {
    pg_num: 2,
    pgp_num: 2,
    hashpspool: true,
    ..TWELVE
};

/// Makes the pool of parts in range. `Err`: an allocation failed, or a part is out of range.
pub fn pool(alloc: Global, short: Short) -> Result<Pool, Fail> {
    let name = Text::copy(alloc, short.name)?;
    let made = Pool::new(PoolParts {
        id: short.id,
        name,
        erasure: short.erasure,
        size: short.size,
        rule: short.rule,
        pg_num: short.pg_num,
        pgp_num: short.pgp_num,
        hashpspool: short.hashpspool,
    });
    match made {
        Ok(pool) => Ok(pool),
        Err(_) => Err(Fail::new("the parts of the pool are out of range")),
    }
}
