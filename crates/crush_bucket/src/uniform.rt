//! The place for which a uniform bucket is asked.

ghost use Rattle.std.specs.Prelude.{◌≡◌, ◌<◌, ◌%◌, ◌^◌};

/// Returns the place for which an attempt asks. Few attempts are as high as the size, and a
/// division takes time.
#[inline]
pub(crate) fn asked_place(r: u32, size: usize) -> usize
    requires some { 0 < size }
    requires few { size < 2 ^ 16 }
    ensures value { result ≡ r % size }
    ensures within { result < size }
{
    let size = size as u32;
    if r < size {
        r as usize
    } else {
        (r % size) as usize
    }
}
