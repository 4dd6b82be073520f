//! Lists that are equal when their elements are.

ghost use Rattle.std.specs.Prelude.{◌≡◌};

use std::marker::Model;

/// A list. Contracts see its elements, so lists with the same elements are equal, whatever their
/// capacity.
#[derive(Drop)]
pub struct Sequence<T> {
    elements: Vec<T>,
}

impl<T> Model for Sequence<T> {
    ghost use Rattle.std.specs.Prelude.{List};

    ghost Value = { List T };

    ghost view = { λ a. a.elements.items };
}

impl<T> Sequence<T> {
    /// Makes the list of a vector's elements. Allocates nothing.
    pub fn new(elements: Vec<T>) -> Self
        ensures { result ≡ elements.items }
    {
        Sequence { elements }
    }

    /// Returns the elements, in order.
    pub fn as_slice(&self) -> &[T]
        ensures { result.now ≡ self.now }
    {
        self.elements.as_slice()
    }

    /// Returns the vector itself. Allocates nothing.
    pub fn into_vec(self) -> Vec<T>
        ensures { result.items ≡ self }
    {
        let Sequence { elements } = self;
        elements
    }
}
