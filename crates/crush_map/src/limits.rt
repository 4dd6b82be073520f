//! The limits of a map: a draft that exceeds one is refused.
//!
//! Each limit is itself allowed. It stands here alone: the definitions import it. Limits of lists
//! are numbers of elements. The limits are those of Ceph's maps where it has any, and otherwise
//! this program's own.

pub use crush_types::limits::ID_COUNT;

/// The most types of a map.
pub const TYPE_LIMIT: usize = 32;

/// The most devices of a map.
pub const DEVICE_LIMIT: usize = 10_000;

/// The most buckets of a map.
pub const BUCKET_LIMIT: usize = 1_024;

/// The most items of a bucket.
pub const ITEM_LIMIT: usize = 4_096;

/// The greatest sum of a bucket's weights, in 16.16 fixed point.
pub const TOTAL_WEIGHT_LIMIT: u64 = 4_294_967_295;

/// The greatest weight of an item of a straw2 bucket, as 16.16 fixed point: just below 32768.0.
pub const STRAW2_WEIGHT_LIMIT: u32 = 2_147_483_647;

/// The most rules of a map.
pub const RULE_LIMIT: usize = 64;

/// The most steps of a rule.
pub const STEP_LIMIT: usize = 32;

/// The most bytes of a name.
pub const NAME_LIMIT: usize = 64;

/// The greatest number of a type, the greatest id of a device, and the greatest n of which -1 - n
/// is the id of a bucket.
pub const NUMBER_LIMIT: u32 = ID_COUNT as u32 - 1;

/// The greatest id of a rule.
pub const RULE_ID_LIMIT: u32 = 255;

/// The greatest |n| of a choose step's number of items n.
pub const COUNT_LIMIT: u32 = 64;

/// The most tries that a step sets, for items or for leaves.
pub const TRIES_LIMIT: u32 = 1_000;

/// The greatest `choose_total_tries`: the most tries after the first one.
pub const TOTAL_TRIES_LIMIT: u32 = 999;

/// The greatest `chooseleaf_vary_r`, as a tunable or set by a step.
pub const VARY_R_LIMIT: u32 = 8;

/// The most digits of a number in a text, and of a weight before its point.
pub const DIGIT_LIMIT: usize = 10;

/// The most digits of a weight after its point.
pub const FRACTION_DIGIT_LIMIT: usize = 20;
