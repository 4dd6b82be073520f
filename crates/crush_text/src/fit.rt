//! Numbers as a draft can hold them.

ghost use Rattle.std.specs.Prelude.{◌≡◌};
ghost use Rattle.crush_text.specs.Judging as spec;

/// Returns a number, or the greatest one that fits.
pub(crate) fn fitted(number: u64) -> u32
    ensures { result ≡ spec.fitted number }
{
    if number < 4_294_967_295 {
        number as u32
    } else {
        4_294_967_295
    }
}

/// Returns an integer, or the nearest one that fits.
pub(crate) fn fitted_integer(integer: i64) -> i32
    ensures { result ≡ spec.fitted_integer integer }
{
    if integer < -2_147_483_648 {
        -2_147_483_648
    } else if integer > 2_147_483_647 {
        2_147_483_647
    } else {
        integer as i32
    }
}
