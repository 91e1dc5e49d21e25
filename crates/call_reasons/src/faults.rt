//! The faults of a call: their statuses and their lines.

ghost use Rattle.std.specs.Prelude.{◌≡◌, ◌+◌, ◌≤◌, ◌∷◌, [], ◌++◌, length, codes};
ghost use Rattle.std.specs.Fmt.{decimal};
ghost use Rattle.arrayvec.specs.ArrayString.{array_string_len};
ghost use Rattle.step_log.specs.Text.{newline};
ghost use Rattle.call_reasons.specs.Statuses.{fault_status};
ghost use Rattle.call_reasons.specs.FaultLines.{fault_line, elf_words, detail_words};

use arrayvec::ArrayString;
use elf_load::ElfFault;

/// Why a call gives no output.
#[derive(Clone, Copy, Drop)]
pub enum Fault {
    /// The words aren't of the grammar.
    Usage,
    /// A file couldn't be read.
    Read,
    /// Memory ran out.
    Memory,
    /// A file has too many bytes.
    Big,
    /// The program's file is refused.
    Elf(ElfFault),
    /// The line of this number, counted from 1, is the first of the script that is malformed, whose event
    /// isn't allowed, or whose thread or pc differs.
    Script(u64),
    /// This number is outside the range of the guest that is asked for.
    Guest(u64),
}

impl Fault {
    /// The exit status.
    pub fn status(&self) -> u8
        ensures { result ≡ fault_status self.now }
    {
        match self {
            Fault::Usage => 2,
            Fault::Elf(_) => 3,
            Fault::Script(_) => 4,
            Fault::Read => 5,
            Fault::Memory => 7,
            Fault::Big => 8,
            Fault::Guest(_) => 9,
        }
    }

    /// The line that names it, with its newline. It takes no memory.
    #[tactic(auto, unfolding(crate::specs::FaultLines::fault_line))]
    pub fn line(&self) -> ArrayString<64>
        ensures { result.bytes ≡ fault_line self.now }
    {
        match self {
            Fault::Usage => line_of("usage"),
            Fault::Elf(fault) => elf_line(fault),
            Fault::Script(number) => numbered_line("script ", *number),
            Fault::Read => line_of("read"),
            Fault::Memory => line_of("memory"),
            Fault::Big => line_of("big"),
            Fault::Guest(number) => numbered_line("guest ", *number),
        }
    }
}

/// The line of a fault with these words.
fn line_of(words: &str) -> ArrayString<64>
    requires { length words.now ≤ 57 }
    ensures { result.bytes ≡ codes "fault " ++ words.now ++ newline ∷ [] }
{
    let mut line = ArrayString::new();
    line.push_str("fault ");
    line.push_str(words);
    line.push_str("\n");
    line
}

/// The line of a refused file.
fn elf_line(fault: &ElfFault) -> ArrayString<64>
    ensures { result.bytes ≡ codes "fault " ++ elf_words fault.now ++ newline ∷ [] }
{
    let mut words = ArrayString::<48>::new();
    words.push_str("elf ");
    push_number(&mut words, u64::from(fault.number()));
    push_detail(&mut words, fault.detail());
    line_of(words.as_str())
}

/// The line of a fault with this word, a space behind it, and this number.
fn numbered_line(word: &str, number: u64) -> ArrayString<64>
    requires { length word.now ≤ 7 }
    ensures { result.bytes ≡ codes "fault " ++ (word.now ++ decimal number) ++ newline ∷ [] }
{
    let mut words = ArrayString::<48>::new();
    words.push_str(word);
    push_number(&mut words, number);
    line_of(words.as_str())
}

/// Appends a space and the number that goes with a fault, if there is one.
fn push_detail(words: &mut ArrayString<48>, detail: Option<u64>)
    requires { array_string_len words.old ≤ 27 }
    ensures { words.new.bytes ≡ words.old.bytes ++ detail_words detail }
{
    if let Some(number) = detail {
        words.push_str(" ");
        push_number(words, number);
    }
}

/// Appends a number in decimal.
fn push_number(words: &mut ArrayString<48>, number: u64)
    requires { array_string_len words.old ≤ 28 }
    ensures bytes { words.new.bytes ≡ words.old.bytes ++ decimal number }
    ensures short { array_string_len words.new ≤ array_string_len words.old + 20 }
{
    let mut digits = itoa::Buffer::new();
    words.push_str(digits.format(number));
}
