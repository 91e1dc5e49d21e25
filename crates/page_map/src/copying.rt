//! The bytes of another page map, taken over page by page.

ghost use Rattle.std.specs.Prelude.{◌≡◌, ◌==◌, ℕ, ◌<◌, if◌then◌else◌, length};
ghost use Rattle.std.specs.Bool.{OnFalse, OnTrue};
ghost use Rattle.page_map.specs.Copying.{StandAlike};
ghost use Rattle.page_map.specs.Map.{break_in, break_start_in, free_in, page_in, permission_in};
ghost use Rattle.page_map.specs.Starting.{StandsWith};

use crate::map::PageMap;

impl PageMap {
    /// Gives each page the bytes that it has in another page map, and answers true, where both have mapped the
    /// same pages with the same permissions in the same order, and have the same breaks and as many free
    /// frames. Else it answers false, and nothing changes: maybe of pages that are the same and were mapped in
    /// another order.
    pub fn take_bytes_of(&mut self, other: &PageMap) -> bool
        ensures pages { OnTrue result ((n : ℕ) → page_in self.new n ≡ page_in other.now n) }
        ensures free { OnTrue result (free_in self.new ≡ free_in other.now) }
        ensures break_at { OnTrue result (break_in self.new ≡ break_in other.now) }
        ensures break_start { OnTrue result (break_start_in self.new ≡ break_start_in other.now) }
        ensures unchanged { OnFalse result (self.new ≡ self.old) }
    {
        if !self.has_limits_of(other) {
            return false;
        }
        if !self.stands_as(other) {
            return false;
        }
        self.take_all(other);
        true
    }

    /// Whether the same pages are mapped as in another page map, with the same permissions. It may be false of
    /// pages that are the same and were mapped in another order.
    pub fn has_pages_of(&self, other: &PageMap) -> bool
        ensures { OnTrue result ((n : ℕ) → permission_in self.now n ≡ permission_in other.now n) }
    {
        self.has_places();
        other.has_places();
        self.stands_as(other)
    }

    /// Whether the breaks are those of another page map, and as many frames are free.
    fn has_limits_of(&self, other: &PageMap) -> bool
        ensures free { OnTrue result (free_in self.now ≡ free_in other.now) }
        ensures break_at { OnTrue result (break_in self.now ≡ break_in other.now) }
        ensures break_start { OnTrue result (break_start_in self.now ≡ break_start_in other.now) }
    {
        self.free() == other.free()
            && self.break_at() == other.break_at()
            && self.break_start() == other.break_start()
    }

    /// Gives each page the bytes that it has in another page map, which has the same pages in the same order.
    fn take_all(&mut self, other: &PageMap)
        requires { StandAlike self.old.mapped other.now.mapped }
        ensures pages { (n : ℕ) → page_in self.new n ≡ page_in other.now n }
        ensures free { free_in self.new ≡ free_in self.old }
        ensures break_at { break_in self.new ≡ break_in self.old }
        ensures break_start { break_start_in self.new ≡ break_start_in self.old }
    {
        for place in 0..self.count() {
            self.take_at(place, other);
        }
        self.has_places();
        other.has_places();
    }

    /// Gives the page at a place of the list the bytes of the page at that place of another list, which must be
    /// the same page.
    fn take_at(&mut self, place: usize, other: &PageMap)
        requires place { place < length self.old.mapped }
        requires other { place < length other.now.mapped }
        ensures pages { (n number permission : ℕ) → StandsWith self.old.mapped place number permission
            → StandsWith other.now.mapped place number permission
            → page_in self.new n ≡ (if n == number then page_in other.now n else page_in self.old n) }
        ensures mapped { self.new.mapped ≡ self.old.mapped }
        ensures free { free_in self.new ≡ free_in self.old }
        ensures break_at { break_in self.new ≡ break_in self.old }
        ensures break_start { break_start_in self.new ≡ break_start_in self.old }
    {
        if other.is_fresh_at(place) {
            self.zero_at(place)
        } else {
            self.fill_at(place, other.bytes_at(place))
        }
    }
}
