//! What becomes of a rep or a position.

use crush_map::ItemId;

/// An item that was chosen.
#[derive(Clone, Copy, Debug, PartialEq, Eq)]
pub struct Spot {
    /// The number of the try that chose it; the first try has number 0.
    pub round: u32,
    pub item: ItemId,
    /// The item itself where it is a device or no leaf is required, else a device below it.
    pub leaf: ItemId,
}

/// The outcome for a rep of choose firstn or a position of choose indep.
#[derive(Clone, Copy, Debug, PartialEq, Eq)]
pub enum Mark {
    /// It was given up: a try ended at a device although another type is required.
    Skipped,
    /// An item was chosen.
    Placed(Spot),
}
