//! The pages of a process one by one, for who reads them all.

ghost use Rattle.std.specs.Prelude.{◌≡◌, ◌-◌, is_some};
ghost use Rattle.mach_types.specs.Kernel.Pages.{first_page};
ghost use Rattle.page_map.specs.Map.{permission_in};

use crate::map::PageMap;

/// How many pages the addresses of a process have.
pub const ALL_PAGES: u64 = 67108864;

impl PageMap {
    /// The first page that is mapped, from one page on; None exactly where none is.
    pub fn next_page(&self, from: u64) -> Option<u64>
        ensures { result ≡ first_page (λ n. is_some (permission_in self.now n)) from (ALL_PAGES - from) }
    {
        self.next_mapped(from, ALL_PAGES)
    }

    /// The permission of a page, where it is mapped.
    pub fn permission(&self, number: u64) -> Option<u8>
        ensures { result ≡ permission_in self.now number }
    {
        Some(self.find(number)?.permission)
    }
}
