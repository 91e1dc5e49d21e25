//! Parts that have done nothing yet: in memory that is taken for them, or in the memory that some have.

ghost use Rattle.std.specs.Prelude.{◌≡◌, ◌≤◌, [], map, length, All, IfOk};
ghost use Rattle.mach_types.specs.{Kernel.Barriers.none_registered, Kernel.Scheduling.start_scheduling};
ghost use Rattle.mach_types.specs.{Kernel.Signals.start_signalling, Limits.InRange};
ghost use Rattle.elf_load.specs.{Images.IsBootable, Start.program_of, Start.start_file};
ghost use Rattle.hart_state.specs.State.{idle_hart};
ghost use Rattle.kernel_threads.specs.Table.{IsTable, start_table};
ghost use Rattle.page_map.specs.Map.{frames_in};
ghost use Rattle.block_model.specs.{Plain.plain_start, Setting.setting_of};
ghost use Rattle.process.specs.Refinement.{IsTied};

use crate::parts::Parts;
use arrayvec::ArrayVec;
use elf_load::Image;
use frame_pool::FramePool;
use hart_state::HartState;
use kernel_threads::Threads;
use mach_types::address_space::START_SP;
use mach_types::{Limits, Registered, Regs, Saved};
use page_map::PageMap;
use scheduler::Ready;
use signals::Signals;
use std::alloc::{AllocError, Global};
use sys_calls::{Console, Kernel};

/// Idle harts.
fn idle_harts(alloc: Global, count: u8) -> Result<Vec<HartState>, AllocError>
    ensures count { IfOk result (λ harts. length harts.items ≡ count) }
    ensures idle { IfOk result (λ harts. All (λ hart. hart ≡ idle_hart) harts.items) }
{
    let mut harts = Vec::new(alloc);
    for _ in 0..count {
        harts.push(HartState::new(alloc)?)?;
    }
    Ok(harts)
}

/// The first thread's file at its start.
fn first_file(image: &Image) -> Saved
    ensures { result ≡ start_file (program_of image.now) }
{
    let mut file = Regs::new();
    file.set(2, START_SP);
    Saved {
        file,
        pc: image.entry,
    }
}

/// No thread runs on any of the harts, and nothing waits.
fn rest(harts: &mut [HartState])
    ensures { harts.new ≡ map (λ _. idle_hart) harts.old }
{
    for hart in harts.iter_mut() {
        hart.reset();
    }
}

/// The same of all harts of a machine.
fn rest_all(harts: &mut Vec<HartState>)
    ensures { harts.new.items ≡ map (λ _. idle_hart) harts.old.items }
{
    rest(harts);
}

/// Thread 1 alone, ready with `start`, on so many harts: no signal, no area, no registration, nothing on
/// the console, and the generator of random bytes at its first state.
fn restart_kernel(kernel: &mut Kernel, start: Saved, harts: u8)
    requires some_hart { 1 ≤ harts }
    requires eight_harts { harts ≤ 8 }
    ensures threads { kernel.new.threads ≡ start_table start }
    ensures table { IsTable kernel.new.threads }
    ensures signals { kernel.new.signals ≡ start_signalling }
    ensures scheduling { kernel.new.ready ≡ start_scheduling harts }
    ensures areas { kernel.new.areas.items ≡ [] }
    ensures registered { kernel.new.registered ≡ none_registered }
    ensures console { kernel.new.console ≡ [] }
    ensures random { kernel.new.random ≡ 0 }
{
    kernel.threads.reset(start);
    kernel.signals.reset();
    kernel.ready.reset(harts);
    kernel.areas.clear();
    kernel.registered = Registered {
        global: false,
        private: false,
        rseq: false,
    };
    kernel.console.clear();
    kernel.random = 0;
}

impl Parts {
    /// The parts of a loaded image that has done nothing yet, on as many harts and with as many frames as the limits say: the
    /// plain machine at its start. All memory that they ever use is taken here; an error only where it is wanting.
    pub fn boot(alloc: Global, image: &Image, limits: Limits) -> Result<Parts, AllocError>
        requires image { IsBootable limits.frames image.now }
        requires limits { InRange limits }
        ensures tied { IfOk result (λ m. IsTied (setting_of image.now limits) (plain_start (setting_of image.now limits)) m) }
        ensures idle { IfOk result (λ m. All (λ hart. hart ≡ idle_hart) m.harts.items) }
    {
        let pool = FramePool::new(alloc, limits.frames)?;
        let pages = PageMap::boot(alloc, pool, image)?;
        let harts = idle_harts(alloc, limits.harts)?;
        let threads = Threads::new(alloc, first_file(image))?;
        let console = Console::new(alloc)?;
        let signals = Signals::new();
        let ready = Ready::new(limits.harts);
        let areas = ArrayVec::new();
        let registered = Registered {
            global: false,
            private: false,
            rseq: false,
        };
        let kernel = Kernel {
            threads,
            signals,
            ready,
            areas,
            registered,
            console,
            random: 0,
        };
        Ok(Parts {
            pages,
            harts,
            kernel,
            ended: None,
        })
    }

    /// Begins anew: the parts, of as many frames and harts as the limits say, are then those of a loaded image that has done
    /// nothing yet. It takes no memory.
    pub fn reset(&mut self, image: &Image, limits: Limits)
        requires image { IsBootable limits.frames image.now }
        requires limits { InRange limits }
        requires frames { frames_in self.old.pages ≡ limits.frames }
        requires harts { length self.old.harts.items ≡ limits.harts }
        ensures tied { IsTied (setting_of image.now limits) (plain_start (setting_of image.now limits)) self.new }
        ensures idle { All (λ hart. hart ≡ idle_hart) self.new.harts.items }
    {
        self.pages.reset(image);
        rest_all(&mut self.harts);
        restart_kernel(&mut self.kernel, first_file(image), limits.harts);
        self.ended = None;
    }
}
