//! Texts that are shared, with their hash.

ghost use Rattle.std.specs.Prelude.{◌≡◌};
ghost use Rattle.crush_pool.specs.Hashes.{text_hash};

use std::alloc::{AllocError, Global};
use std::hash::{FoldHasher, Hash, Hasher};
use std::marker::Model;
use std::rc::RcStr;

/// A text that is shared, and not copied, by all who have it. Contracts see its bytes.
#[derive(Drop)]
pub struct SharedText {
    text: RcStr,
    /// The hash of the text, which is made once.
    hash: u64,
}

impl Model for SharedText {
    ghost use Rattle.std.specs.Prelude.{◌≡◌, List, ℕ};
    ghost use Rattle.std.specs.Rc.{rc_str_bytes};
    ghost use Rattle.crush_pool.specs.Hashes.{text_hash};

    ghost Value = { List ℕ };

    ghost view = { λ a. rc_str_bytes a.text };

    ghost invariant = { λ a. a.hash ≡ text_hash (rc_str_bytes a.text) };
}

/// Hashes a text.
fn hash_of(text: &str) -> u64
    ensures { result ≡ text_hash text.now }
{
    let mut hasher = FoldHasher::default();
    text.hash(&mut hasher);
    hasher.finish()
}

impl SharedText {
    ghost use Rattle.std.specs.Prelude.{◌≡◌, IfOk, string_bytes, bytes_eq};
    ghost use Rattle.crush_pool.specs.Hashes.{text_hash};

    /// Makes the text of a string, which it holds. Takes time linear in its length, for the hash.
    /// `Err(AllocError)`: an allocation failed; the string is dropped.
    pub fn new(string: String) -> Result<Self, AllocError>
        ensures { IfOk result (λ text. text ≡ string_bytes string) }
    {
        let hash = hash_of(string.as_str());
        let text = RcStr::from_string(string)?;
        Ok(SharedText { text, hash })
    }

    /// Returns the text as a string slice.
    pub fn as_str(&self) -> &str
        ensures { result.now ≡ self.now }
    {
        self.text.as_str()
    }

    /// Returns the hash of the text.
    pub fn hash(&self) -> u64
        ensures { result ≡ text_hash self.now }
    {
        self.hash
    }

    /// Shares the text with one more who has it. Takes no memory, but can be refused where the
    /// number of those who share it is full.
    pub fn share(&self) -> Result<Self, AllocError>
        ensures { IfOk result (λ again. again ≡ self.now) }
    {
        Ok(SharedText {
            text: self.text.clone()?,
            hash: self.hash,
        })
    }
}
