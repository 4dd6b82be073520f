//! A list of numbers up to `NUMBER_LIMIT`.
//!
//! A short list is searched; a longer one has a table of flags by which a number is looked up in
//! one step.

ghost use Rattle.std.specs.Prelude.{◌≡◌, ◌<◌, ◌≤◌, ◌++◌, ◌∷◌, [], ℕ, IfOk, IsTrue, OnOk, length, slice_index_or, false};
ghost use Rattle.std.specs.List.{All};
ghost use Rattle.crush_map.specs.Faults as spec;
ghost use Rattle.crush_map.specs.Private.Tables.{IsTableOf};

use crate::limits::ID_COUNT;
use std::alloc::{AllocError, Global};
use std::marker::Model;

/// The longest list without a table: to search it takes less time than to clear a table.
const SHORT_LIST: usize = 64;

/// Numbers in the order in which they were added. The table may be empty only as long as the list
/// is short.
#[derive(Drop)]
pub struct Numbers {
    alloc: Global,
    order: Vec<u32>,
    table: Vec<bool>,
}

impl Model for Numbers {
    ghost use Rattle.std.specs.Prelude.{List, ℕ};
    ghost use Rattle.crush_map.specs.Private.Tables.{IsIndexOf};

    ghost Value = { List ℕ };

    ghost view = { λ a. a.order.items };

    ghost invariant = { λ a. IsIndexOf a.order.items a.table.items };
}

/// Makes a table of `size` flags that are all false.
fn empty_table(alloc: Global, size: usize) -> Result<Vec<bool>, AllocError>
    ensures len { IfOk result (λ t. length t.items ≡ size) }
    ensures none { IfOk result (λ t. (n : ℕ) → slice_index_or t.items n false ≡ false) }
{
    Ok(vec![in alloc; false; size]?)
}

/// Makes the table of a list.
fn table_of(alloc: Global, numbers: &[u32]) -> Result<Vec<bool>, AllocError>
    requires { All (λ n. n < ID_COUNT) numbers.now }
    ensures { IfOk result (λ t. IsTableOf numbers.now t.items) }
{
    let mut table = empty_table(alloc, ID_COUNT)?;
    for number in numbers {
        table[*number as usize] = true;
    }
    Ok(table)
}

impl Numbers {
    /// Returns the empty list.
    pub(crate) fn new(alloc: Global) -> Self
        ensures { result ≡ [] }
    {
        Numbers {
            alloc,
            order: Vec::new(alloc),
            table: Vec::new(alloc),
        }
    }

    /// Returns how many numbers are in the list.
    pub(crate) fn len(&self) -> usize
        ensures { result ≡ length self.now }
    {
        self.order.as_slice().len()
    }

    /// Returns whether a number is in the list.
    pub(crate) fn has(&self, number: u32) -> bool
        ensures value { result ≡ spec.has_number self.now number }
        ensures known { IsTrue result → number < ID_COUNT }
    {
        let table = self.table.as_slice();
        if table.is_empty() {
            return self.order.as_slice().contains(&number);
        }
        match table.get(number as usize) {
            Some(seen) => *seen,
            None => false,
        }
    }

    /// Adds a number at the end.
    ///
    /// `Err(AllocError)`: an allocation failed; the value must not be used any more.
    pub(crate) fn add(&mut self, number: u32) -> Result<(), AllocError>
        requires { number < ID_COUNT }
        ensures { OnOk result (self.new ≡ self.old ++ number ∷ []) }
    {
        if self.table.is_empty() && self.order.len() >= SHORT_LIST {
            self.table = table_of(self.alloc, self.order.as_slice())?;
        }
        self.order.push(number)?;
        if !self.table.is_empty() {
            self.table[number as usize] = true;
        }
        Ok(())
    }
}
