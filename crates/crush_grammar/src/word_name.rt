//! Names in a text.

ghost use Rattle.std.specs.Prelude.{◌≡◌};

use std::marker::Model;

/// A name, borrowed from a text. Contracts see its bytes.
#[derive(Drop)]
pub struct Name<'a> {
    text: &'a str,
}

impl<'a> Model for Name<'a> {
    ghost use Rattle.std.specs.Prelude.{ℕ, List};

    ghost Value = { List ℕ };

    ghost view = { λ name. name.text.now };
}

impl<'a> Name<'a> {
    /// Makes the name that `text` is.
    pub fn new(text: &'a str) -> Self
        ensures { result ≡ text.now }
    {
        Name { text }
    }

    /// Returns the name's text.
    pub fn as_str(&self) -> &'a str
        ensures { result.now ≡ self.now }
    {
        self.text
    }
}
