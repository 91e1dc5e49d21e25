//! Laws of barriers among two processes, each as the contract of a function that does nothing.

ghost use Rattle.std.specs.Prelude.{◌≡◌, ℕ, ℤ};
ghost use Rattle.mach_types.specs.Kernel.Barriers as barriers;
ghost use Rattle.mach_types.specs.Kernel.PairBarriers as pairs;
ghost use Rattle.mach_types.specs.declared.barriers.BarrierCommand.TheVariants.{Global, GlobalExpedited};
ghost use Rattle.mach_types.specs.declared.barriers.Registered.{Registered};

/// Where no thread of the other process runs, a call answers as it does where there is one process.
pub fn nobody_beside()
    ensures { (mine other : Registered) (cmd : ℤ) (flags : ℕ) (cpu : ℤ) (here running harts : ℕ)
        → pairs.command_two mine other cmd flags cpu here running 0 harts
        ≡ barriers.command mine cmd flags cpu here running harts }
{}

/// A global barrier is about the same harts, whichever of two processes calls it.
pub fn global_barriers_are_about_both()
    ensures all { (mine other : Registered) (a b harts : ℕ)
        → pairs.concerned Global mine other a b harts ≡ pairs.concerned Global other mine b a harts }
    ensures registered { (mine other : Registered) (a b harts : ℕ)
        → pairs.concerned GlobalExpedited mine other a b harts
        ≡ pairs.concerned GlobalExpedited other mine b a harts }
{}
