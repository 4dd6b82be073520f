//! A value for each id that a device can have.

ghost use Rattle.std.specs.Prelude.{◌≡◌, ◌≤◌, ◌∷◌, [], ℕ, List, max, length, IfOk, OnOk, OnErr};
ghost use Rattle.crush_types.specs.DeviceValues as spec;
ghost use Rattle.crush_types.specs.Private.Padded.{padded};

use crate::limits::ID_COUNT;
use std::alloc::{AllocError, Global};
use std::marker::Model;

/// A value for each id that a device can have, 0 to `ID_COUNT` - 1, and one value for the rest: the
/// ids that were given none, and those of `ID_COUNT` or more.
///
/// Contracts see the values of all ids that a device can have, in order, and that of the rest. The
/// table in memory reaches to the greatest id that was given a value.
#[derive(Drop)]
pub struct DeviceVec<T> {
    rest: T,
    table: Vec<T>,
}

impl<T> Model for DeviceVec<T> {
    ghost use Rattle.std.specs.Prelude.{◌≤◌, length};
    ghost use Rattle.crush_types.specs.declared.limits.TheConstants.{ID_COUNT};
    ghost use Rattle.crush_types.specs.DeviceValues.{Values};
    ghost use Rattle.crush_types.specs.Private.Padded.{padded};

    ghost Value = { Values T };

    ghost view = { λ a. record { values = padded a.rest a.table.items; rest = a.rest } };

    ghost invariant = { λ a. length a.table.items ≤ ID_COUNT };
}

/// Extends `table` to `len` values, if it is shorter; each further value is `rest`.
///
/// `Err(AllocError)`: an allocation failed; nothing is changed.
fn reach<T: Copy>(table: &mut Vec<T>, len: usize, rest: T) -> Result<(), AllocError>
    requires few { length table.old.items ≤ ID_COUNT }
    requires fits { len ≤ ID_COUNT }
    ensures same { padded rest table.new.items ≡ padded rest table.old.items }
    ensures least { OnOk result (length table.new.items ≡ max (length table.old.items) len) }
    ensures err { OnErr result (table.new.items ≡ table.old.items) }
{
    if len > table.len() {
        table.resize(len, rest)?;
    }
    Ok(())
}

impl<T: Copy> DeviceVec<T> {
    /// Makes the table in which each id has the value `rest`. It has room for the first `reached`
    /// ids, at most `ID_COUNT`.
    ///
    /// `Err(AllocError)`: an allocation failed; nothing is changed.
    pub fn new(alloc: Global, rest: T, reached: usize) -> Result<Self, AllocError>
        ensures all { IfOk result (λ t. t ≡ spec.all rest) }
        ensures none { IfOk result (λ t. t ≡ spec.values_of rest []) }
    {
        let mut table = Vec::new(alloc);
        reach(&mut table, reached.min(ID_COUNT), rest)?;
        Ok(DeviceVec { rest, table })
    }

    /// Makes the table of pairs of id and value. It has room for at least the first `reached` ids,
    /// at most `ID_COUNT`.
    ///
    /// Of several pairs for one id the first counts. An id without a pair has the value `rest`, and
    /// so has each id of `ID_COUNT` or more.
    ///
    /// `Err(AllocError)`: an allocation failed; nothing is changed.
    pub fn of(
        alloc: Global,
        rest: T,
        reached: usize,
        given: &[(u32, T)],
    ) -> Result<Self, AllocError>
        ensures all { IfOk result (λ t. t ≡ spec.values_of rest given.now) }
        ensures each { IfOk result (λ t. (id : ℕ) → spec.value_at t id ≡ spec.value_of rest given.now id) }
    {
        let mut table = DeviceVec::new(alloc, rest, reached)?;
        for place in (0..given.len()).rev() {
            let pair = given[place];
            table.set(pair.0, pair.1)?;
        }
        Ok(table)
    }

    /// Gives an id a value, in place of the one that it has. An id of `ID_COUNT` or more is passed
    /// over.
    ///
    /// `Err(AllocError)`: an allocation failed; nothing is changed.
    pub fn set(&mut self, id: u32, value: T) -> Result<(), AllocError>
        ensures ok { OnOk result (self.new ≡ spec.with_value self.old id value) }
        ensures first { OnOk result ((given : List (ℕ × T)) → self.old ≡ spec.values_of self.old.rest given → self.new ≡ spec.values_of self.old.rest ((id, value) ∷ given)) }
        ensures err { OnErr result (self.new ≡ self.old) }
    {
        let place = id as usize;
        if place < ID_COUNT {
            reach(&mut self.table, place + 1, self.rest)?;
            self.table[place] = value;
        }
        Ok(())
    }

    /// Returns the value of an id.
    pub fn get(&self, id: u32) -> T
        ensures { result ≡ spec.value_at self.now id }
    {
        match self.table.as_slice().get(id as usize) {
            Some(value) => *value,
            None => self.rest,
        }
    }
}
