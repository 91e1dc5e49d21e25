//! Laws of machines, each as the contract of a function that does nothing.

ghost use Rattle.std.specs.Prelude.{◌≡◌, ℕ, List, map};
ghost use Rattle.std.specs.List.Sorted.{IsStrictlyIncreasing};
ghost use Rattle.elf_load.specs.declared.image.ImagePage.{ImagePage};
ghost use Rattle.block_model.specs.Stretches.{Stretch, worked};
ghost use Rattle.process.specs.Pages.{code_of};

/// A stretch that is worked over the pages of a program that may be executed is as one that is worked over all its pages.
pub fn code_is_enough()
    ensures { (pages : List ImagePage) (n : ℕ) (l : Stretch)
        → IsStrictlyIncreasing (map (λ (p : ImagePage). p.number) pages)
        → worked n (code_of pages) l ≡ worked n pages l }
{}
