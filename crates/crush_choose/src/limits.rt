//! The limits of answers and of traces. Each is itself allowed, and stands here alone: the
//! definitions import them.

use crush_map::limits::STEP_LIMIT;

/// The most devices that the choose steps of one run put out, each counted as often as it is put
/// out.
pub const TRACE_LIMIT: usize = STEP_LIMIT * SIZE_LIMIT;

/// The most slots of an answer: the greatest size for which a rule is run, and the most items or
/// positions of a call.
pub const SIZE_LIMIT: usize = 32;
