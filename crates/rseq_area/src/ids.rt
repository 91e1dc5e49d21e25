//! The concurrency ids of threads that run (the field `mm_cid` of an area).

ghost use Rattle.std.specs.Prelude.{◌≡◌, ◌≢◌, ◌<◌, ℕ, true, false};
ghost use Rattle.mach_types.specs.Kernel.Areas as areas;

/// The least id that isn't in the set `held`, which has a bit for each id.
pub fn lowest_cid(held: u8) -> u8
    requires { held ≢ 255 }
    ensures id { result ≡ areas.lowest_cid held }
    ensures free { areas.is_held held result ≡ false }
    ensures least { (cid : ℕ) → cid < result → areas.is_held held cid ≡ true }
{
    held.trailing_ones() as u8
}
