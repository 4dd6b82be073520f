//! Receipts: what an accepted change leaves, so that a request that is repeated acts once.

ghost use Rattle.std.specs.Prelude.{◌≡◌, map, string_bytes};
ghost use Rattle.tenant_state.specs.Ordered.{is_ascending, is_before_first};
ghost use Rattle.tenant_state.specs.Receipts as spec;

use crush_map::Text;
use std::alloc::{AllocError, Global};
use std::collections::BTreeMap;
use std::marker::Model;
use std::rc::Rc;
use tenant_messages::SuccessStatus;

/// What is stored of an accepted changing request: its path and body, and its reply.
#[derive(Drop)]
pub struct Receipt {
    pub path: Text,
    pub body: Text,
    pub status: SuccessStatus,
    pub reply: Text,
}

/// Returns whether a request is the one that left the receipt: the same path and the same body, to
/// the byte.
pub fn is_repeat(path: &str, body: &str, receipt: &Receipt) -> bool
    ensures { result ≡ spec.is_repeat path.now body.now receipt.now }
{
    path == receipt.path.as_str() && body == receipt.body.as_str()
}

/// The receipts of a tenant. Contracts see pairs of a request number and its receipt, in the order
/// of the numbers' bytes.
#[derive(Drop)]
pub struct Receipts {
    by_number: BTreeMap<String, Rc<Receipt>>,
}

impl Model for Receipts {
    ghost use Rattle.std.specs.Prelude.{map, string_bytes};
    ghost use Rattle.tenant_state.specs.Receipts.{Receipts};

    ghost Value = { Receipts };

    ghost view = { λ a. map (λ e. (string_bytes e.0, e.1.value)) a.by_number.entries };
}

impl Receipts {
    ghost use Rattle.std.specs.Prelude.{◌≡◌, [], length, OnOk, OnErr, IfOk, map, string_bytes, option_map};
    ghost use Rattle.tenant_state.specs.Ordered.{if_ascending};
    ghost use Rattle.tenant_state.specs.Receipts.{is_before, receipt_of, with_receipt};

    /// Makes a list without receipts. Allocates nothing.
    pub fn new(alloc: Global) -> Self
        ensures { result ≡ [] }
    {
        Receipts {
            by_number: BTreeMap::new(alloc),
        }
    }

    /// Makes the receipts of a list that is in the order of their numbers' bytes. `None`, exactly
    /// where a number comes twice or out of order. Takes time n log n in the length n of the list.
    /// `Err(AllocError)`: an allocation failed; the list is dropped.
    pub fn from_list(
        alloc: Global,
        receipts: Vec<(String, Rc<Receipt>)>,
    ) -> Result<Option<Self>, AllocError>
        ensures { IfOk result (λ found. found ≡ if_ascending is_before (map (λ e. (string_bytes e.0, e.1.value)) receipts.items)) }
    {
        if !are_ascending(&receipts) {
            return Ok(None);
        }
        let mut by_number = BTreeMap::new(alloc);
        let mut rest = receipts;
        while let Some((number, receipt)) = rest.pop() {
            by_number.insert(number, receipt)?;
        }
        Ok(Some(Receipts { by_number }))
    }

    /// Returns the number of receipts.
    pub fn len(&self) -> usize
        ensures { result ≡ length self.now }
    {
        self.by_number.len()
    }

    /// Returns the receipt of a request number, or `None`.
    pub fn get(&self, number: &str) -> Option<&Rc<Receipt>>
        ensures { option_map (λ r. r.now.value) result ≡ receipt_of number.now self.now }
    {
        match self.by_number.get(number) {
            Some(receipt) => Some(receipt),
            None => None,
        }
    }

    /// Finds the receipt of a request number and shares it, or returns `None`. `Err(AllocError)`:
    /// an allocation failed; nothing is changed.
    pub fn find(&self, number: &str) -> Result<Option<Rc<Receipt>>, AllocError>
        ensures { IfOk result (λ found. option_map (λ r. r.value) found ≡ receipt_of number.now self.now) }
    {
        match self.get(number) {
            Some(receipt) => Ok(Some(receipt.clone()?)),
            None => Ok(None),
        }
    }

    /// Adds a receipt, in place of one with the same number. `Err(AllocError)`: an allocation
    /// failed; nothing is changed.
    pub fn insert(&mut self, number: String, receipt: Rc<Receipt>) -> Result<(), AllocError>
        ensures ok { OnOk result (self.new ≡ with_receipt (string_bytes number) receipt.value self.old) }
        ensures err { OnErr result (self.new ≡ self.old) }
    {
        self.by_number.insert(number, receipt)?;
        Ok(())
    }

    /// Makes a copy that shares the receipts. `Err(AllocError)`: an allocation failed; nothing is
    /// changed.
    pub fn copy(&self) -> Result<Self, AllocError>
        ensures { IfOk result (λ again. again ≡ self.now) }
    {
        Ok(Receipts {
            by_number: self.by_number.clone()?,
        })
    }
}

/// Returns whether the numbers ascend, so that none comes twice.
fn are_ascending(receipts: &[(String, Rc<Receipt>)]) -> bool
    ensures { result ≡ is_ascending spec.is_before (map (λ e. (string_bytes e.0, e.1.value)) receipts.now) }
{
    let mut rest = receipts;
    while let [first, others @ ..] = rest {
        if !is_before_first(first, others) {
            return false;
        }
        rest = others;
    }
    true
}

/// Returns whether the number of `first` comes before that of the first of `others`, if there is
/// one.
fn is_before_first(first: &(String, Rc<Receipt>), others: &[(String, Rc<Receipt>)]) -> bool
    ensures { result ≡ is_before_first spec.is_before (string_bytes first.now.0, first.now.1.value) (map (λ e. (string_bytes e.0, e.1.value)) others.now) }
{
    match others {
        [next, ..] => first.0.as_str() < next.0.as_str(),
        [] => true,
    }
}
