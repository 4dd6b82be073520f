//! Ceph's logarithm of a draw, in fixed point, by its tables, and how late an item with such a draw
//! arrives.
//!
//! Sources: Ceph's `src/crush/mapper.c` (`crush_ln`) and `src/crush/crush_ln_table.h`. The
//! functions allocate nothing and can't fail.
#![tactic(auto)]

ghost use Rattle.std.specs.Prelude.{◌≡◌, ◌<◌, ◌≤◌, ◌+◌, ◌*◌, ◌^◌, slice_index};
ghost use Rattle.crush_ln.specs.Log.{scaled, mantissa_log, delay};
ghost use Rattle.crush_ln.specs.declared.tables.TheConstants.{RECIPROCALS, LOGS, REST_LOGS};

pub mod laws;
pub mod tables;

/// Returns the reciprocal at `place`.
#[inline(always)]
fn reciprocal(place: usize) -> u64
    requires { place < 129 }
    ensures { result ≡ slice_index RECIPROCALS place }
{
    tables::RECIPROCALS[place]
}

/// Returns the logarithm at `place`.
#[inline(always)]
fn log_at(place: usize) -> u64
    requires { place < 129 }
    ensures { result ≡ slice_index LOGS place }
{
    tables::LOGS[place]
}

/// Returns the logarithm of the rest at `place`.
#[inline(always)]
fn rest_log(place: usize) -> u64
    requires { place < 256 }
    ensures { result ≡ slice_index REST_LOGS place }
{
    tables::REST_LOGS[place]
}

/// Returns a number above 0, doubled until it is at least 2^15, after its exponent: 15, less one
/// for each time.
#[inline(always)]
fn scaled(number: u32) -> (u32, u32)
    requires some { 0 < number }
    requires small { number ≤ 2 ^ 16 }
    ensures value { (result.0, result.1) ≡ scaled 15 number }
    ensures exponent { result.0 ≤ 15 }
    ensures low { 2 ^ 15 ≤ result.1 }
    ensures high { result.1 ≤ 2 ^ 16 }
{
    let exponent = number.ilog2().min(15);
    (exponent, number << (15 - exponent))
}

/// Returns the logarithm of a mantissa from 2^15 to 2^16.
#[inline(always)]
fn mantissa_log(mantissa: u32) -> u64
    requires low { 2 ^ 15 ≤ mantissa }
    requires high { mantissa ≤ 2 ^ 16 }
    ensures value { result ≡ mantissa_log mantissa }
    ensures small { result < 2 ^ 47 }
{
    let place = (mantissa >> 8) as usize - 128;
    let rest = (u64::from(mantissa) * reciprocal(place) >> 48) % 256;
    (log_at(place) + rest_log(rest as usize)) >> 4
}

/// Returns the delay of a draw: how far its logarithm lies below 2^48.
pub fn delay(draw: u32) -> u64
    requires { draw < 2 ^ 16 }
    ensures value { result ≡ delay draw }
    ensures within { result ≤ 2 ^ 48 }
{
    let (exponent, mantissa) = scaled(draw + 1);
    let log = (u64::from(exponent) << 44) + mantissa_log(mantissa);
    (1u64 << 48).saturating_sub(log)
}
