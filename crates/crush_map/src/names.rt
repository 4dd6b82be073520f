//! A list of names, with an index by which one is looked up.

ghost use Rattle.std.specs.Prelude.{◌≡◌, ◌++◌, ◌∷◌, [], IfOk, OnErr, not, if◌then◌else◌};
ghost use Rattle.crush_map.specs.Faults as spec;

use crush_types::Text;
use std::alloc::{AllocError, Global};
use std::collections::BTreeSet;
use std::marker::Model;

/// Names in the order in which they were added.
#[derive(Drop)]
pub struct Names {
    order: Vec<Text>,
    index: BTreeSet<String>,
}

impl Model for Names {
    ghost use Rattle.std.specs.Prelude.{List, ℕ, ◌≡◌};
    ghost use Rattle.std.specs.BTreeSet.{contains_text};
    ghost use Rattle.crush_map.specs.Faults.{has_name};

    ghost Value = { List (List ℕ) };

    ghost view = { λ a. a.order.items };

    ghost invariant = { λ a. (name : List ℕ) → contains_text a.index name ≡ has_name a.order.items name };
}

impl Names {
    /// Returns the empty list.
    pub(crate) fn new(alloc: Global) -> Self
        ensures { result ≡ [] }
    {
        Names {
            order: Vec::new(alloc),
            index: BTreeSet::new(alloc),
        }
    }

    /// Returns whether a name is in the list.
    pub(crate) fn has(&self, name: &str) -> bool
        ensures { result ≡ spec.has_name self.now name.now }
    {
        self.index.contains(name)
    }

    /// Adds a name at the end, unless it is in the list, and returns whether it was new.
    ///
    /// `Err(AllocError)`: an allocation failed; nothing is changed.
    pub(crate) fn insert(&mut self, alloc: Global, name: &str) -> Result<bool, AllocError>
        ensures new { IfOk result (λ new. new ≡ not (spec.has_name self.old name.now)) }
        ensures ok { IfOk result (λ new. self.new ≡ (if new then self.old ++ name.now ∷ [] else self.old)) }
        ensures err { OnErr result (self.new ≡ self.old) }
    {
        let listed = Text::copy(alloc, name)?;
        let key = String::from_str(alloc, name)?;
        self.order.reserve(1)?;
        let new = self.index.insert(key)?;
        if new {
            self.order.push_reserved(listed);
        }
        Ok(new)
    }
}
