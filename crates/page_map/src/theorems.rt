//! Laws of page maps, each as the contract of a function that does nothing.

ghost use Rattle.std.specs.Prelude.{◌≡◌, ◌≤◌, ◌<◌, ◌/◌, ◌^◌, ℕ, List, Option, Some, None, true, false, if◌then◌else◌, is_some};
ghost use Rattle.std.specs.Option.{option_map};
ghost use Rattle.mach_types.specs.Bytes.{after_writes, each_byte, written};
ghost use Rattle.mach_types.specs.Kernel.Pages.{can_execute, can_read, fits_at, lowest_hole};
ghost use Rattle.mach_types.specs.declared.user_memory.Write.{Write};
ghost use Rattle.page_map.specs.Map.{IsAlike, Map, are_visible, byte_in, can_write_in, code_in, held_in, may_write, permission_in};

use mach_types::address_space::FIRST_MAPPING_PAGE;

/// What can be read, written and executed is what the permission of the page lets.
pub fn permission_decides()
    ensures bytes { (m : Map) (a : ℕ) → is_some (byte_in m a) ≡ can_read (permission_in m (a / 4096)) }
    ensures writes { (m : Map) (a : ℕ) → can_write_in m a ≡ may_write (permission_in m (a / 4096)) }
    ensures code { (m : Map) (a : ℕ) → is_some (code_in m a) ≡ can_execute (permission_in m (a / 4096)) }
{}

/// No page lies at or past the address 2^38.
pub fn addresses_end()
    ensures { (m : Map) (n : ℕ) → 2 ^ 26 ≤ n → permission_in m n ≡ None }
{}

/// A byte of code is below 256.
pub fn code_is_bytes()
    ensures { (m : Map) (a b : ℕ) → code_in m a ≡ Some b → b < 256 }
{}

/// A byte that can be read, or executed, is the one that its page holds.
pub fn held_bytes_are_seen()
    ensures bytes { (m : Map) (a : ℕ)
        → byte_in m a ≡ (if can_read (permission_in m (a / 4096)) then held_in m a else None) }
    ensures code { (m : Map) (a : ℕ)
        → code_in m a ≡ (if can_execute (permission_in m (a / 4096)) then held_in m a else None) }
{}

/// A page map that is like another, and shows what some writes left, holds what they left: each byte that
/// they write could be read. A byte that can be written is one.
pub fn alike_maps_hold_writes()
    ensures held { (m m' : Map) (ws : List Write) → IsAlike m m' → are_visible m ws ≡ true
        → ((a : ℕ) → byte_in m' a ≡ after_writes ws (byte_in m) a)
        → (a : ℕ) → held_in m' a ≡ option_map (written ws a) (held_in m a) }
    ensures writable { (m : Map) (at n : ℕ) → each_byte (can_write_in m) at n ≡ true
        → each_byte (λ a. is_some (byte_in m a)) at n ≡ true }
{}

/// So many pages are mapped at the lowest place of the mappings where they fit, and nowhere exactly where
/// they fit nowhere.
pub fn lowest_hole_is_lowest()
    ensures from { (permission : ℕ → Option ℕ) (count n : ℕ) → lowest_hole permission count ≡ Some n
        → FIRST_MAPPING_PAGE ≤ n }
    ensures fits { (permission : ℕ → Option ℕ) (count n : ℕ) → lowest_hole permission count ≡ Some n
        → fits_at permission count n ≡ true }
    ensures lowest { (permission : ℕ → Option ℕ) (count n : ℕ) → lowest_hole permission count ≡ Some n
        → (k : ℕ) → FIRST_MAPPING_PAGE ≤ k → k < n → fits_at permission count k ≡ false }
    ensures nowhere { (permission : ℕ → Option ℕ) (count : ℕ) → 0 < count
        → lowest_hole permission count ≡ None
        → (k : ℕ) → FIRST_MAPPING_PAGE ≤ k → fits_at permission count k ≡ false }
{}
