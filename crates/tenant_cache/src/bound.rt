//! How many bytes of what tenants have are kept, as a part of a type.

ghost use Rattle.std.specs.Prelude.{◌≡◌, ℕ};

/// A type that stands for a number of bytes: at most that much of what tenants have is kept.
pub trait Bound {
    /// The number.
    ghost bytes: { ℕ };

    /// Returns the number of bytes.
    fn bytes() -> u64
        ensures { result ≡ bytes };
}

/// The type that stands for `N` bytes.
pub struct ByteBound<const N: u64>;

impl<const N: u64> Bound for ByteBound<N> {
    ghost bytes = { N };

    fn bytes() -> u64 {
        N
    }
}
