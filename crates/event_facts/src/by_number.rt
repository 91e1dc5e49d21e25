//! What was kept of each thread before an event, in the order of their numbers.

ghost use Rattle.std.specs.Prelude.{◌≡◌, None, slice_get, unwrap_or};

/// What stands at a place among these; None past the end.
pub(crate) fn at_place<T: Copy>(kept: &[Option<T>], place: u32) -> Option<T>
    ensures { result ≡ unwrap_or (slice_get kept.now place) None }
{
    kept.get(place as usize).copied().unwrap_or(None)
}
