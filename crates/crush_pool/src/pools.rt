//! When pools are the same, and what of them is hashed.

ghost use Rattle.std.specs.Prelude.{◌≡◌};
ghost use Rattle.crush_pool.specs.Hashes.{fed_with, pool_writes};
ghost use Rattle.crush_pool.specs.Contents.{pool_eq};

use crate::Pool;
use std::hash::{FoldHasher, Hash, Hasher};

/// Returns whether all settings of two pools are the same.
pub(crate) fn is_same_pool(pool: &Pool, other: &Pool) -> bool
    ensures { result ≡ pool_eq pool.now other.now }
{
    let parts = pool.parts();
    let others = other.parts();
    parts.id == others.id
        && parts.name.as_str() == others.name.as_str()
        && parts.erasure == others.erasure
        && parts.size == others.size
        && parts.rule == others.rule
        && parts.pg_num == others.pg_num
        && parts.pgp_num == others.pgp_num
        && parts.hashpspool == others.hashpspool
}

/// Feeds all settings of a pool to a hasher.
pub(crate) fn feed_pool(hasher: &mut FoldHasher, pool: &Pool)
    ensures { hasher.new ≡ fed_with hasher.old (pool_writes pool.now) }
{
    let parts = pool.parts();
    parts.id.hash(hasher);
    parts.name.as_str().hash(hasher);
    parts.erasure.hash(hasher);
    parts.size.hash(hasher);
    parts.rule.hash(hasher);
    parts.pg_num.hash(hasher);
    parts.pgp_num.hash(hasher);
    parts.hashpspool.hash(hasher);
}
