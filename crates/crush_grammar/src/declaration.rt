//! Declarations as they are written, with names for numbers and numbers of any size.

use crate::Name;
use crush_map::{Kind, Sequence, Weight};

/// The name of a tunable.
#[derive(Clone, Copy, Debug, PartialEq, Eq)]
pub enum TunableName {
    LocalTries,
    LocalFallbackTries,
    TotalTries,
    DescendOnce,
    VaryR,
    Stable,
    StrawCalcVersion,
    AllowedBucketAlgs,
}

/// A tunable and its value.
#[derive(Drop)]
pub struct DeclaredTunable {
    pub line: usize,
    pub name: TunableName,
    pub value: u64,
}

/// A device.
#[derive(Drop)]
pub struct DeclaredDevice<'a> {
    pub line: usize,
    pub id: u64,
    pub name: Name<'a>,
}

/// A type.
#[derive(Drop)]
pub struct DeclaredType<'a> {
    pub line: usize,
    pub number: u64,
    pub name: Name<'a>,
}

/// The `pos` of an item, and its line.
#[derive(Clone, Copy)]
pub struct Place {
    pub line: usize,
    pub number: u64,
}

/// An item of a bucket.
#[derive(Drop)]
pub struct DeclaredItem<'a> {
    pub name: Name<'a>,
    pub weight: Option<Weight>,
    pub place: Option<Place>,
}

/// The header of a bucket, and the line of its first word.
#[derive(Drop)]
pub struct BucketHead<'a> {
    pub line: usize,
    pub type_name: Name<'a>,
    pub name: Name<'a>,
}

/// A bucket.
#[derive(Drop)]
pub struct DeclaredBucket<'a> {
    pub head: BucketHead<'a>,
    pub id: i64,
    pub alg: Kind,
    pub items: Sequence<DeclaredItem<'a>>,
}

/// What a set step sets.
#[derive(Clone, Copy, Debug, PartialEq, Eq)]
pub enum Setting {
    ChooseTries,
    LeafTries,
    VaryR,
    Stable,
    LocalTries,
    LocalFallbackTries,
}

/// A step of a rule.
#[derive(Drop)]
pub enum DeclaredStep<'a> {
    Take(Name<'a>),
    Set(Setting, u64),
    Choose {
        firstn: bool,
        leaf: bool,
        n: i64,
        wanted: Name<'a>,
    },
    Emit,
}

/// A rule.
#[derive(Drop)]
pub struct DeclaredRule<'a> {
    pub line: usize,
    pub name: Name<'a>,
    pub id: u64,
    pub erasure: bool,
    pub steps: Sequence<DeclaredStep<'a>>,
}

/// A declaration.
#[derive(Drop)]
pub enum Declaration<'a> {
    Tunable(DeclaredTunable),
    Device(DeclaredDevice<'a>),
    TypeName(DeclaredType<'a>),
    Bucket(DeclaredBucket<'a>),
    Rule(DeclaredRule<'a>),
}
