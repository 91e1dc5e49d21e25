//! The pages that may have been written, in order of their numbers.

ghost use Rattle.std.specs.Prelude.{◌≡◌, ℕ, ◌<◌, ◌≤◌, IfSome, length};
ghost use Rattle.frame_pool.specs.Pool.{fresh};
ghost use Rattle.page_map.specs.Map.{page_in};
ghost use Rattle.page_map.specs.Starting.{StandsWith};

use crate::listing::ALL_PAGES;
use crate::map::PageMap;

impl PageMap {
    /// The first page from one on that is mapped and may have been written, or [`ALL_PAGES`] where there is none:
    /// each page before it that is mapped has zero bytes, because nothing has written them. It looks at none of
    /// their bytes, and takes time in the pages that are mapped, and none in the gaps between them.
    pub fn next_written(&self, from: u64) -> u64
        ensures from { from ≤ ALL_PAGES → from ≤ result }
        ensures within { result ≤ ALL_PAGES }
        ensures zero { (n : ℕ) → from ≤ n → n < result → IfSome (page_in self.now n) (λ p. p.bytes ≡ fresh) }
    {
        self.has_places();
        let mut first = ALL_PAGES;
        for place in 0..self.count() {
            first = self.first_written(place, from, first);
        }
        first
    }

    /// The number of the page at a place of the list, where it may have been written and lies from one number on
    /// and before another; else that other one.
    fn first_written(&self, place: usize, from: u64, first: u64) -> u64
        requires { place < length self.now.mapped }
        ensures from { from ≤ first → from ≤ result }
        ensures within { result ≤ first }
        ensures zero { (n permission : ℕ) → StandsWith self.now.mapped place n permission → from ≤ n → n < result
            → IfSome (page_in self.now n) (λ p. p.bytes ≡ fresh) }
    {
        let number = self.number_at(place);
        if number < from {
            return first;
        }
        if number >= first {
            return first;
        }
        if self.is_fresh_at(place) {
            return first;
        }
        number
    }
}
