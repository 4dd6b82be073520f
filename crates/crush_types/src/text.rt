//! Texts that are equal when their bytes are.
//!
//! A contract sees of a `String` also where its bytes are in memory; of a `Text` it sees the bytes
//! alone.

ghost use Rattle.std.specs.Prelude.{string_bytes, ◌≡◌, IfOk};

use std::alloc::{AllocError, Global};
use std::marker::Model;

/// A text, such as a name. Contracts see the list of its bytes.
#[derive(Drop)]
pub struct Text {
    string: String,
}

impl Model for Text {
    ghost use Rattle.std.specs.Prelude.{ℕ, List, string_bytes};

    ghost Value = { List ℕ };

    ghost view = { λ written. string_bytes written.string };
}

impl Text {
    /// Makes the text of a string, which it holds. Allocates nothing.
    pub fn new(string: String) -> Self
        ensures { result ≡ string_bytes string }
    {
        Text { string }
    }

    /// Copies a text.
    ///
    /// `Err(AllocError)`: an allocation failed; nothing is changed.
    pub fn copy(alloc: Global, original: &str) -> Result<Self, AllocError>
        ensures { IfOk result (λ again. again ≡ original.now) }
    {
        let string = String::from_str(alloc, original)?;
        Ok(Text { string })
    }

    /// Returns the text as a string slice.
    pub fn as_str(&self) -> &str
        ensures { result.now ≡ self.now }
    {
        self.string.as_str()
    }

    /// Returns the string that the text holds. Allocates nothing.
    pub fn into_string(self) -> String
        ensures { string_bytes result ≡ self }
    {
        let Text { string } = self;
        string
    }
}
