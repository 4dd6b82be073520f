//! Pools: each `Pool` has a name and numbers that are in range.

ghost use Rattle.std.specs.Prelude.{◌≡◌, ◌<◌, ◌^◌, true, false, IfOk, IfErr, length, is_ok};
ghost use Rattle.crush_pool.specs.Groups.{mask_of, stable_mod};
ghost use Rattle.crush_pool.specs.Pools as spec;

use crate::group::{mask_of, stable_mod};
use crate::laws::numbers_fall_into_groups;
use crate::limits::{GROUP_LIMIT, POOL_ID_LIMIT};
use crush_choose::limits::SIZE_LIMIT;
use crush_hash::{hash2, name_hash};
use crush_map::limits::RULE_ID_LIMIT;
use crush_map::{Text, is_name};
use std::marker::Model;

/// Why there is no pool, no placement in it, or why pairs are no exceptions of it.
#[derive(Clone, Copy, Debug, PartialEq, Eq)]
pub enum PoolFault {
    /// A number or the name is out of range.
    P1,
    /// The pool has no such group.
    P2,
    /// There are too many pairs, or one of them has a number out of range or one id twice.
    P3,
}

/// The settings of a pool.
#[derive(Drop)]
pub struct PoolParts {
    /// Its id, 1..`POOL_ID_LIMIT`.
    pub id: u32,
    /// Its name: 1 to 64 ASCII letters, digits, `-`, `_` and `.`.
    pub name: Text,
    /// Whether its data is erasure coded; else it is replicated.
    pub erasure: bool,
    /// How many devices a group has, 1..`SIZE_LIMIT`.
    pub size: u32,
    /// The id of its rule, 0..`RULE_ID_LIMIT`.
    pub rule: u32,
    /// How many groups the pool has, 1..`GROUP_LIMIT`.
    pub pg_num: u32,
    /// How many places its groups take, 1..`pg_num`.
    pub pgp_num: u32,
    /// Whether a group's seed is the hash of its place and the pool's id; else it is their sum.
    pub hashpspool: bool,
}

/// A pool whose numbers and name are in range. Contracts see its settings.
#[derive(Drop)]
pub struct Pool {
    parts: PoolParts,
    /// The mask for its groups.
    group_mask: u32,
    /// The mask for the places of its groups.
    place_mask: u32,
}

impl Model for Pool {
    ghost use Rattle.std.specs.Prelude.{◌≡◌, true};
    ghost use Rattle.crush_pool.specs.Groups.{mask_of};
    ghost use Rattle.crush_pool.specs.Pools.{is_pool};
    ghost use Rattle.crush_pool.specs.declared.pool.PoolParts.{PoolParts};

    ghost Value = { PoolParts };

    ghost view = { λ a. a.parts };

    ghost invariant = { λ a. record {
      valid : is_pool a.parts ≡ true;
      groups : a.group_mask ≡ mask_of a.parts.pg_num;
      places : a.place_mask ≡ mask_of a.parts.pgp_num;
    } };
}

/// Returns whether the numbers and the name are in range.
fn is_pool(parts: &PoolParts) -> bool
    ensures { result ≡ spec.is_pool parts.now }
{
    (1..=POOL_ID_LIMIT).contains(&parts.id)
        && is_name(parts.name.as_str())
        && (1..=SIZE_LIMIT).contains(&(parts.size as usize))
        && parts.rule <= RULE_ID_LIMIT
        && (1..=GROUP_LIMIT).contains(&parts.pg_num)
        && (1..=parts.pg_num).contains(&parts.pgp_num)
}

impl Pool {
    /// Makes a pool of its settings, or answers `P1` where a number or the name is out of range.
    pub fn new(parts: PoolParts) -> Result<Pool, PoolFault>
        ensures there { is_ok result ≡ spec.is_pool parts }
        ensures pool { IfOk result (λ pool. pool ≡ parts) }
        ensures fault { IfErr result (λ fault. fault ≡ PoolFault.P1) }
    {
        if !is_pool(&parts) {
            return Err(PoolFault::P1);
        }
        let group_mask = mask_of(parts.pg_num);
        let place_mask = mask_of(parts.pgp_num);
        Ok(Pool {
            parts,
            group_mask,
            place_mask,
        })
    }

    /// Returns the pool's settings, which are in range.
    pub fn parts(&self) -> &PoolParts
        ensures same { result.now ≡ self.now }
        ensures valid { spec.is_pool self.now ≡ true }
    {
        &self.parts
    }

    /// Returns the group of the object with the name `name`, which has fewer than 2^32 bytes
    /// (`object_locator_to_pg` of Ceph).
    pub fn group_of(&self, name: &[u8]) -> u32
        requires { length name.now < 2 ^ 32 }
        ensures value { result ≡ spec.group_of self.now name.now }
        ensures there { result < self.now.pg_num }
    {
        self.group_of_hash(name_hash(name))
    }

    /// Returns the group of the objects whose names have the hash `hash` (`raw_pg_to_pg` of Ceph).
    pub fn group_of_hash(&self, hash: u32) -> u32
        ensures value { result ≡ stable_mod hash self.now.pg_num (mask_of self.now.pg_num) }
        ensures there { result < self.now.pg_num }
    {
        numbers_fall_into_groups();
        stable_mod(hash, self.parts.pg_num, self.group_mask)
    }

    /// Returns the place of a group, which is a group below `pgp_num`. Groups with one place have
    /// one seed (`laws::groups_have_the_seeds_of_their_places`).
    pub fn place_of(&self, group: u32) -> u32
        ensures { result ≡ stable_mod group self.now.pgp_num (mask_of self.now.pgp_num) }
    {
        stable_mod(group, self.parts.pgp_num, self.place_mask)
    }

    /// Returns the input x with which the rule runs for a group (`raw_pg_to_pps` of Ceph).
    pub fn seed_of(&self, group: u32) -> u32
        ensures { result ≡ spec.seed_of self.now group }
    {
        let place = self.place_of(group);
        if self.parts.hashpspool {
            hash2(place, self.parts.id)
        } else {
            place.wrapping_add(self.parts.id)
        }
    }
}
