//! The item that arrives first, of those that were offered, almost without divisions.

ghost use Rattle.std.specs.Prelude.{◌≡◌, ◌<◌, ◌≤◌, ◌^◌, nat_lt};
ghost use Rattle.crush_bucket.specs.Kinds.{never, time_of};
ghost use Rattle.crush_bucket.specs.Private.Soonest.{quotient, time, HasLimits, IsOffered};

use crush_ln::delay;

/// The greatest draw up to which no lower draw has a shorter delay. The greatest draw of all has a
/// longer one than the draw before it.
const LAST: u32 = 65_533;

/// The first place whose item arrives no later than the others that were offered. Its time is
/// `delay` over `weight`, rounded down; the best of no items weighs nothing. No item whose draw is
/// at most `draw` and whose weight is at most `weight` arrives sooner.
#[derive(Clone, Copy)]
pub(crate) struct SoonestItem {
    pub(crate) place: usize,
    delay: u64,
    draw: u32,
    weight: u32,
}

/// Returns the best of no items.
#[inline(always)]
pub(crate) fn nothing() -> SoonestItem
    ensures place { result.place ≡ 0 }
    ensures time { time result ≡ never }
    ensures has_limits { HasLimits result }
{
    SoonestItem {
        place: 0,
        delay: 0,
        draw: 0,
        weight: 0,
    }
}

/// Returns whether a delay over a weight, rounded down, is below another; one without weight is
/// below none. The products of 128 bits decide, unless they differ by less than 1 in the quotients:
/// only then does it divide.
#[inline(always)]
fn is_sooner(delay: u64, weight: u32, other: u64, other_weight: u32) -> bool
    requires low { delay ≤ 2 ^ 48 }
    requires other_low { other ≤ 2 ^ 48 }
    ensures { result ≡ nat_lt (quotient delay weight) (quotient other other_weight) }
{
    if weight == 0 {
        return false;
    }
    if other_weight == 0 {
        return true;
    }
    let mine = u128::from(delay) * u128::from(other_weight);
    let others = u128::from(other) * u128::from(weight);
    if mine >= others {
        return false;
    }
    if mine + u128::from(weight) * u128::from(other_weight) <= others {
        return true;
    }
    delay / u64::from(weight) < other / u64::from(other_weight)
}

/// Takes the item at `place` if it arrives before the best so far. An item that draws no more and
/// weighs no more than the best isn't asked for its delay.
#[inline(always)]
pub(crate) fn offer(best: &mut SoonestItem, place: usize, draw: u32, weight: u32)
    requires small { draw < 2 ^ 16 }
    requires has_limits { HasLimits best.old }
    ensures { IsOffered best.old place (time_of draw weight) best.new }
{
    if draw > best.draw || weight > best.weight {
        let delay = delay(draw);
        if is_sooner(delay, weight, best.delay, best.weight) {
            *best = SoonestItem {
                place,
                delay,
                draw: draw.min(LAST),
                weight,
            };
        }
    }
}
