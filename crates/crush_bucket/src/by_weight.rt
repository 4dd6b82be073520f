//! Which items a bucket can pick, whatever the input.

ghost use Rattle.std.specs.Prelude.{◌≡◌};
ghost use Rattle.std.specs.List.{list_any};
ghost use Rattle.crush_bucket.specs.Pickable as spec;

use crush_map::{ItemId, Kind, Weight};

/// Returns whether some item weighs something.
fn some_weighs(items: &[(ItemId, Weight)]) -> bool
    ensures { result ≡ list_any spec.weighs items.now }
{
    items.iter().any(|item| item.1.0 > 0)
}

/// Returns whether a bucket of the kind `kind` picks items of weight above 0 alone.
pub fn picks_by_weight(kind: Kind, items: &[(ItemId, Weight)]) -> bool
    ensures { result ≡ spec.picks_by_weight kind items.now }
{
    !kind.is_uniform() && some_weighs(items)
}

/// Returns the items that a bucket of the kind `kind` can pick where it doesn't go by weights, or
/// none weighs anything.
pub fn without_weights(kind: Kind, items: &[(ItemId, Weight)]) -> &[(ItemId, Weight)]
    ensures { result.now ≡ spec.without_weights kind items.now }
{
    match kind {
        Kind::Uniform => items,
        Kind::List | Kind::Straw2 => &items[..items.len().min(1)],
        Kind::Tree => &items[items.len().saturating_sub(1)..],
    }
}
