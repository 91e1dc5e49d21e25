//! Laws of the lines: what is printed is read back, and each line is written in one way.

ghost use Rattle.std.specs.Prelude.{◌≡◌, ℕ, List, Some, map};
ghost use Rattle.std.specs.List.{AllByRecursion};
ghost use Rattle.step_log.specs.Grammar.{IsLine, IsPrintable, line_text, log_text};
ghost use Rattle.step_log.specs.Script.{lines_of, line_meaning, whole_line};
ghost use Rattle.step_log.specs.Text.{entry_line};
ghost use Rattle.step_log.specs.declared.fields.Line.{Line};
ghost use Rattle.mach_types.specs.declared.events.Entry.{Entry};

/// What `print_entry` writes is read as the entry's hart, choice, thread and pc.
pub fn printed_entry_is_read()
    ensures { (e : Entry) → IsPrintable e → line_meaning (entry_line e) ≡ Some (whole_line e) }
{}

/// The lines of a printed log are those of its entries, in order, and each says what its entry says.
pub fn printed_log_is_read()
    ensures lines { (log : List Entry) → AllByRecursion IsPrintable log
        → lines_of (log_text log) ≡ map entry_line log }
    ensures meanings { (log : List Entry) → AllByRecursion IsPrintable log
        → map line_meaning (lines_of (log_text log)) ≡ map (λ e. Some (whole_line e)) log }
{}

/// The lines that say something are exactly the texts of what a line can say.
pub fn line_has_one_text()
    // Each such text says that.
    ensures read { (l : Line) → IsLine l → line_meaning (line_text l) ≡ Some l }
    // No other text says it.
    ensures only { (text : List ℕ) (l : Line) → line_meaning text ≡ Some l → text ≡ line_text l }
    ensures said { (text : List ℕ) (l : Line) → line_meaning text ≡ Some l → IsLine l }
{}
