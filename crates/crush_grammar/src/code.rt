//! Why a text is not a map.

use crush_map::FaultCode;

/// A fault of a text.
#[derive(Clone, Copy, Debug, PartialEq, Eq)]
pub enum TextCode {
    /// A word is not of the grammar, or the text ends too early.
    X1,
    /// A bucket is of the kind straw, or of the kind straw2 in a text that doesn't ask for it.
    X2,
    /// A class follows the item of a take step.
    X3,
    /// The text has `choose_args`.
    X4,
    /// An item names a place past the bucket's items, or one that another item names.
    X5,
    /// A weight isn't of the form.
    X6,
    /// The text is longer than an imported text may be.
    X7,
    /// What is declared is not a map, for this fault.
    Map(FaultCode),
}

/// A fault and its line; the first line is 1.
#[derive(Clone, Copy, Debug, PartialEq, Eq)]
pub struct TextFault {
    pub line: usize,
    pub code: TextCode,
}
