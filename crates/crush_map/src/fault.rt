//! Why a draft isn't a map.

/// A fault of a draft.
#[derive(Clone, Copy, Debug, PartialEq, Eq)]
pub enum FaultCode {
    /// There are more devices, types, buckets, items, rules or steps than the limit, or a rule has
    /// no step.
    M1,
    /// An id or number occurs twice among devices, buckets, types or rules.
    M2,
    /// A name occurs twice among devices and buckets, among types, or among rules.
    M3,
    /// The type of a bucket isn't declared, or there is no type 0.
    M4,
    /// An item isn't declared earlier.
    M5,
    /// An item occurs twice in a bucket.
    M6,
    /// The sum of a bucket's weights is over 2^32 - 1, or one of straw2 is over 2^31 - 1.
    M7,
    /// The weights in a uniform bucket differ.
    M8,
    /// A bucket has type 0.
    M9,
    /// A step takes an item that isn't declared.
    M10,
    /// The type of a choose step isn't declared.
    M11,
    /// A number is out of its range.
    M12,
    /// Local tries or local fallback tries aren't 0.
    M13,
    /// A chooseleaf indep step has type 0.
    M14,
    /// A name isn't of the form, or a type is named tunable, device, type, rule, choose_args or
    /// class.
    M15,
}

/// The list of a draft that has a fault, or the draft's end.
#[derive(Clone, Copy, Debug, PartialEq, Eq)]
pub enum Element {
    Types,
    Devices,
    Buckets,
    Rules,
    End,
}

/// A fault and where it is.
#[derive(Clone, Copy, Debug, PartialEq, Eq)]
pub struct MapFault {
    pub code: FaultCode,
    pub element: Element,
    /// The place in the list, from 0 on; 0 for a fault at the end.
    pub index: usize,
}
