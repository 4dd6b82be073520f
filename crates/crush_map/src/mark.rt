//! The mark of texts that ask for straw2 buckets.

ghost use Rattle.std.specs.Prelude.{◌≡◌};
ghost use Rattle.crush_map.specs.Mark as spec;

/// Returns the line by which a text asks for straw2, where it is the text's first line.
pub fn straw2_mark() -> &'static str
    ensures { result.now ≡ spec.straw2_mark }
{
    "# crushcalc: straw2"
}
