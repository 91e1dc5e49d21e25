//! The pages of a start where they still stand from the last one: only their bytes are written anew.

ghost use Rattle.std.specs.Prelude.{◌≡◌, ℕ, ◌+◌, ◌-◌, ◌≤◌, ◌<◌, Some, All, IfSome, length, slice_get, slice_index};
ghost use Rattle.std.specs.Bool.{OnTrue};
ghost use Rattle.std.specs.List.Sorted.{IsStrictlyIncreasing};
ghost use Rattle.std.specs.Option.{option_or};
ghost use Rattle.elf_load.specs.Images.{IsBootable, numbers};
ghost use Rattle.elf_load.specs.declared.image.ImagePage.{ImagePage as GivenPage};
ghost use Rattle.page_map.specs.Map.{break_in, break_start_in, frames_in, free_in, page_in};
ghost use Rattle.page_map.specs.Starting.{AreLaidOut, IsStartPage, StandsWith, image_page};

use crate::boot::{RETURN_PERMISSION, STACK_PERMISSION, return_bytes};
use crate::map::PageMap;
use elf_load::{Image, ImagePage};
use mach_types::address_space::{FIRST_STACK_PAGE, RETURN_PAGE, STACK_PAGES};

/// How many pages a start maps beside those of the image: those of the stack, and the one that signal handlers
/// return to.
const OWN_PAGES: usize = 65;

impl PageMap {
    /// Maps the pages of an image, the stack, and the page that signal handlers return to, in place of all pages
    /// that are mapped. Where they still stand as a start maps them, their bytes alone are written.
    pub(crate) fn lay_out_again(&mut self, image: &Image)
        requires { IsBootable (frames_in self.old) image.now }
        ensures pages { (n : ℕ) → IsStartPage image.now.pages.items n (page_in self.new n) }
        ensures free { free_in self.new + 65 + length image.now.pages.items ≡ frames_in self.old }
        ensures break_at { break_in self.new ≡ image.now.break_at }
        ensures break_start { break_start_in self.new ≡ image.now.break_at }
    {
        if self.stands(image) {
            self.refill(image)
        } else {
            self.lay_out_anew(image)
        }
    }

    /// Maps them in place of all pages that are mapped, wherever those stand.
    fn lay_out_anew(&mut self, image: &Image)
        requires { IsBootable (frames_in self.old) image.now }
        ensures pages { (n : ℕ) → IsStartPage image.now.pages.items n (page_in self.new n) }
        ensures free { free_in self.new + 65 + length image.now.pages.items ≡ frames_in self.old }
        ensures break_at { break_in self.new ≡ image.now.break_at }
        ensures break_start { break_start_in self.new ≡ image.now.break_at }
    {
        self.clear(image.break_at);
        self.lay_out(image);
    }

    /// Whether the pages of a start are mapped, as a start maps them, and no others, and the break is that of the
    /// start. It may be false of pages that are the same and stand in another order.
    fn stands(&self, image: &Image) -> bool
        ensures pages { OnTrue result (AreLaidOut image.now.pages.items self.now.mapped) }
        ensures break_at { OnTrue result (break_in self.now ≡ image.now.break_at) }
        ensures break_start { OnTrue result (break_start_in self.now ≡ image.now.break_at) }
    {
        let mapped = self.count();
        if mapped < OWN_PAGES {
            return false;
        }
        let place = mapped - OWN_PAGES;
        if image.pages.len() != place {
            return false;
        }
        if self.break_at() != image.break_at {
            return false;
        }
        if self.break_start() != image.break_at {
            return false;
        }
        if !self.image_stands(&image.pages) {
            return false;
        }
        if !self.has_at(place, RETURN_PAGE, RETURN_PERMISSION) {
            return false;
        }
        self.stack_stands(mapped)
    }

    /// Whether the first pages that are mapped are those of an image.
    fn image_stands(&self, pages: &[ImagePage]) -> bool
        ensures { OnTrue result ((i : ℕ) (p : GivenPage) → slice_get pages.now i ≡ Some p
            → StandsWith self.now.mapped i p.number p.perm) }
    {
        for (place, page) in pages.iter().enumerate() {
            if !self.has_at(place, page.number, page.perm) {
                return false;
            }
        }
        true
    }

    /// Whether the last of so many pages that are mapped are those of the stack, the lowest last.
    fn stack_stands(&self, mapped: usize) -> bool
        requires { 65 ≤ mapped }
        ensures { OnTrue result ((k : ℕ) → k < STACK_PAGES
            → StandsWith self.now.mapped (mapped - 1 - k) (FIRST_STACK_PAGE + k) 6) }
    {
        for k in 0..STACK_PAGES {
            if !self.has_at(
                mapped - 1 - k as usize,
                FIRST_STACK_PAGE + k,
                STACK_PERMISSION,
            ) {
                return false;
            }
        }
        true
    }

    /// Gives the pages of a start, which stand as a start maps them, the bytes of the start.
    fn refill(&mut self, image: &Image)
        requires image { IsBootable (frames_in self.old) image.now }
        requires laid { AreLaidOut image.now.pages.items self.old.mapped }
        requires break_at { break_in self.old ≡ image.now.break_at }
        requires break_start { break_start_in self.old ≡ image.now.break_at }
        ensures pages { (n : ℕ) → IsStartPage image.now.pages.items n (page_in self.new n) }
        ensures free { free_in self.new + 65 + length image.now.pages.items ≡ frames_in self.old }
        ensures break_at { break_in self.new ≡ image.now.break_at }
        ensures break_start { break_start_in self.new ≡ image.now.break_at }
    {
        self.has_start();
        self.zero_pages();
        self.fill_image(&image.pages);
        self.fill_at(image.pages.len(), &return_bytes());
    }

    /// Gives the pages of an image, which are the first that are mapped, their bytes.
    fn fill_image(&mut self, pages: &[ImagePage])
        requires rising { IsStrictlyIncreasing (numbers pages.now) }
        requires sizes { All (λ page. length page.bytes ≡ 4096) pages.now }
        requires stand { (i : ℕ) (p : GivenPage) → slice_get pages.now i ≡ Some p
            → StandsWith self.old.mapped i p.number p.perm }
        ensures pages { (n : ℕ) → page_in self.new n ≡ option_or (image_page pages.now n) (page_in self.old n) }
        ensures small { (n : ℕ) → IfSome (image_page pages.now n) (λ p. (k : ℕ) → slice_index p.bytes k < 256) }
        ensures mapped { self.new.mapped ≡ self.old.mapped }
        ensures free { free_in self.new ≡ free_in self.old }
        ensures break_at { break_in self.new ≡ break_in self.old }
        ensures break_start { break_start_in self.new ≡ break_start_in self.old }
    {
        for (place, page) in pages.iter().enumerate() {
            self.fill_at(place, &page.bytes);
        }
    }
}
