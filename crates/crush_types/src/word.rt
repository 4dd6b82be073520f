//! Ids, weights and kinds of buckets.

ghost use Rattle.std.specs.Prelude.{◌≡◌};
ghost use Rattle.std.specs.Int.{cast_unsigned, w32};
ghost use Rattle.crush_types.specs.Kinds.{is_straw2, is_uniform, kind_name, kind_named};

/// A weight or reweight in 16.16 fixed point: 65536 is 1.0.
#[derive(Clone, Copy, Debug, PartialEq, Eq)]
pub struct Weight(pub u32);

/// The id of an item: a device's is 0 or above, a bucket's is below 0.
#[derive(Clone, Copy, Debug, PartialEq, Eq)]
pub struct ItemId(pub i32);

impl ItemId {
    /// Returns the 32-bit word of an id in a hash: its two's complement.
    pub fn word(self) -> u32
        ensures { result ≡ cast_unsigned w32 self.0 }
    {
        self.0.cast_unsigned()
    }
}

/// The algorithm by which a bucket picks one of its items.
#[derive(Clone, Copy, Debug, PartialEq, Eq)]
pub enum Kind {
    Uniform,
    List,
    Tree,
    Straw2,
}

impl Kind {
    /// Returns the kind's name.
    pub fn name(self) -> &'static str
        ensures { result.now ≡ kind_name self }
    {
        match self {
            Kind::Uniform => "uniform",
            Kind::List => "list",
            Kind::Tree => "tree",
            Kind::Straw2 => "straw2",
        }
    }

    /// Returns the kind with a name that each text and each request may give: `uniform`, `list` or
    /// `tree`. `straw2` is a name in texts that ask for it alone.
    pub fn named(name: &[u8]) -> Option<Kind>
        ensures { result ≡ kind_named name.now }
    {
        if name == Kind::Uniform.name().as_bytes() {
            Some(Kind::Uniform)
        } else if name == Kind::List.name().as_bytes() {
            Some(Kind::List)
        } else if name == Kind::Tree.name().as_bytes() {
            Some(Kind::Tree)
        } else {
            None
        }
    }

    /// Returns whether all items of a bucket of this kind must have the same weight.
    pub fn is_uniform(self) -> bool
        ensures { result ≡ is_uniform self }
    {
        matches!(self, Kind::Uniform)
    }

    /// Returns whether this is `Kind::Straw2`.
    pub fn is_straw2(self) -> bool
        ensures { result ≡ is_straw2 self }
    {
        matches!(self, Kind::Straw2)
    }
}
