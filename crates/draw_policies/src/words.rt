//! What is read of a word of a generator: its decimal digits.

ghost use Rattle.std.specs.Prelude.{◌≡◌, ◌<◌};
ghost use Rattle.draw_policies.specs.Words as words;

/// A word of a generator.
#[derive(Clone, Copy, Drop)]
pub struct Word(pub u64);

impl Word {
    /// Its lowest three digits, for whether the stretch goes on.
    pub fn stay(self) -> u16
        ensures { result ≡ words.stay_of self.0 }
    {
        (self.0 % 1_000) as u16
    }

    /// The next three, for whether a thread leaves its hart.
    pub(crate) fn preempt(self) -> u16
        ensures { result ≡ words.preempt_of self.0 }
    {
        (self.0 / 1_000 % 1_000) as u16
    }

    /// The next three, for whether a waiting store enters memory.
    pub(crate) fn drain(self) -> u16
        ensures { result ≡ words.drain_of self.0 }
    {
        (self.0 / 1_000_000 % 1_000) as u16
    }

    /// The next three, for whether a thread is interrupted.
    pub(crate) fn interrupt(self) -> u16
        ensures { result ≡ words.interrupt_of self.0 }
    {
        (self.0 / 1_000_000_000 % 1_000) as u16
    }

    /// A place among so many harts, by the digits above these; 0 among none.
    pub fn hart_place(self, count: u8) -> u8
        ensures { result ≡ words.hart_place self.0 count }
    {
        if count == 0 {
            return 0;
        }
        (self.0 / 1_000_000_000_000 % u64::from(count)) as u8
    }

    /// A place among so many threads, by the same digits divided by 840, which 1 to 8 divide; 0 among none.
    pub(crate) fn thread_place(self, count: usize) -> usize
        ensures place { result ≡ words.thread_place self.0 count }
        ensures small { result < 32768 }
    {
        if count == 0 {
            return 0;
        }
        (self.0 / 840_000_000_000_000 % count as u64) as usize
    }

    /// Which of the four stays a new stretch has, by the same digits divided by 60,480: 0 to 3.
    pub fn stretch(self) -> u8
        ensures stretch { result ≡ words.stretch_of self.0 }
        ensures small { result < 4 }
    {
        (self.0 / 60_480_000_000_000_000 % 4) as u8
    }
}
