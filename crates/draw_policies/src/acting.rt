//! What a hart has that it can go on with.

ghost use Rattle.std.specs.Prelude.{◌≡◌};
ghost use Rattle.chooser.specs.Cases as cases;

use mach_types::Sight;

/// Whether a store of the hart waits.
pub(crate) fn has_stores(sight: &Sight) -> bool
    ensures { result ≡ cases.has_stores sight.now }
{
    sight.stores > 0
}
