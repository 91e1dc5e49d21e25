//! The three traits by which the machine's program reaches the world.

ghost use Rattle.std.specs.Prelude.{◌≡◌, ◌<◌, ◌≤◌, ◌↔◌, ℕ, Bool, false, List, [], Option, None, take, length, IsTrue, IsErrOf, IfSome, IfOk, OnOk, OnErr};
ghost use Rattle.outside.specs.Counts.{Rose, NeverFalls, NoneFalls, StartedRose};
ghost use Rattle.outside.specs.Told.{Gained, Moved};
ghost use Rattle.std.specs.declared.io.ErrorKind.{ErrorKind};

use crate::faults::{Failed, StartFault};
use crate::progress::Progress;
use mach_types::Hart;
use std::io::ErrorKind;

/// A place that files are read from, by name, one at a time from its first byte to its last.
///
/// A shelf in memory tells the bytes of its files, the started name and what is left; a real one
/// tells none of them. (own)
pub trait Shelf {
    // The bytes of the file of this name, where the shelf tells them.
    ghost file: { Self → List ℕ → Option (List ℕ) };

    // Whether a file is started.
    ghost is_started: { Self → Bool };

    // The name of the started file, where the shelf tells it.
    ghost started_name: { Self → Option (List ℕ) };

    // What is left of the started file, where the shelf tells it.
    ghost left: { Self → Option (List ℕ) };

    // How many faults there were at this name.
    ghost faults: { Self → List ℕ → ℕ };

    // What the system said of the last fault, where it is known.
    ghost last_trouble: { Self → Option ErrorKind };

    /// Makes the named file the started one, at its first byte. After a refusal no file is started.
    fn start(&mut self, name: &str) -> Result<(), StartFault>
        ensures started { OnOk result (IsTrue (is_started self.new)) }
        ensures named { OnOk result (IfSome (started_name self.new) (λ started. started ≡ name.now)) }
        ensures whole { OnOk result (left self.new ≡ file self.old name.now) }
        ensures none_started { OnErr result (is_started self.new ≡ false) }
        ensures failed { IsErrOf result StartFault.Failed
            → Rose (faults self.old name.now) (faults self.new name.now) }
        ensures files { file self.new ≡ file self.old }
        ensures counts { NoneFalls (faults self.old) (faults self.new) };

    /// Moves the next bytes of the started file to the front of `buf`, and says how many. None is
    /// the end of the file. After `Failed` nothing is known of what is left.
    fn read(&mut self, buf: &mut [u8]) -> Result<usize, Failed>
        requires started { IsTrue (is_started self.old) }
        requires room { 0 < length buf.old }
        ensures within { IfOk result (λ n. n ≤ length buf.new) }
        ensures moved { IfOk result (λ n. Moved (left self.old) (left self.new) (take n buf.new)) }
        ensures end { IfOk result (λ n. IfSome (left self.old) (λ bytes. (n ≡ 0) ↔ (bytes ≡ []))) }
        ensures failed { OnErr result
            (StartedRose (started_name self.old) (faults self.old) (faults self.new)) }
        ensures still_started { IsTrue (is_started self.new) }
        ensures name { started_name self.new ≡ started_name self.old }
        ensures files { file self.new ≡ file self.old }
        ensures counts { NoneFalls (faults self.old) (faults self.new) };

    /// What the system said of the last fault, as far as std tells it; None where there was none, or
    /// where nobody told.
    fn trouble(&self) -> Option<ErrorKind>
        ensures { result ≡ last_trouble self.now };
}

/// A place that bytes are written to, which only grows.
///
/// A sink in memory tells what it holds; a real one doesn't. (own)
pub trait Sink {
    // What the sink holds, where it tells it.
    ghost held: { Self → Option (List ℕ) };

    // How many faults there were.
    ghost faults: { Self → ℕ };

    // What the system said of the last fault, where it is known.
    ghost last_trouble: { Self → Option ErrorKind };

    /// Appends the first bytes of `piece`, at least one if there is one, and says how many. After
    /// `Failed` nothing was appended.
    fn put(&mut self, piece: &[u8]) -> Result<usize, Failed>
        ensures empty { length piece.now ≡ 0 → result ≡ Ok 0 }
        ensures some { IfOk result (λ n. 0 < length piece.now → 0 < n) }
        ensures within { IfOk result (λ n. n ≤ length piece.now) }
        ensures appended { IfOk result (λ n. Gained (held self.old) (held self.new) (take n piece.now)) }
        ensures failed { OnErr result (Rose (faults self.old) (faults self.new)) }
        ensures unchanged { OnErr result (held self.new ≡ held self.old) }
        ensures counts { NeverFalls (faults self.old) (faults self.new) };

    /// What the system said of the last fault, as far as std tells it; None where there was none, or
    /// where nobody told.
    fn trouble(&self) -> Option<ErrorKind>
        ensures { result ≡ last_trouble self.now };

    /// Hears how far an exploration or a search is, before its text is written, and answers whether it takes so long that what it found so far is
    /// to be said.
    ///
    /// It has no meaning: nothing is appended, and no fault comes of it. A device may show it to a person. By default nothing is done,
    /// and nothing takes long. (own)
    fn show_progress(&self, _progress: &Progress) -> bool {
        false
    }

    /// Hears a line for a person, with its newline. It has no meaning either, and by default nothing is done. (own)
    fn say(&self, _line: &str) {}
}

/// What a worker passes once before each turn that it asks for, outside the turn.
///
/// It has no meaning; a test uses it to see that two workers overlap. (own)
pub trait Gate {
    fn pass(&self, hart: Hart);
}
