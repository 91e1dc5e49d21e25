//! Laws of all blocks of the library in runs, each as the contract of a function that does nothing.

ghost use Rattle.std.specs.Prelude.{ℕ, List, [], ◌∷◌, ◌++◌, Some, false, true, length, slice_get};
ghost use Rattle.std.specs.Prelude.{◌+◌, ◌*◌, ◌%◌, ◌^◌, ◌<◌, ◌≡◌, ◌≢◌, ◌≤◌, ◌⊎◌};
ghost use Rattle.mach_types.specs.{Registers.register, declared.events.Entry.Entry, declared.sequences.Area.Area};
ghost use Rattle.mach_types.specs.declared.events.Kind.TheVariants as event_kind;
ghost use Rattle.block_model.specs.Acts.{Sequence, end_before, end_so_far, sequence_on};
ghost use Rattle.block_model.specs.History.{file, running};
ghost use Rattle.block_model.specs.{Deciding.event, Deciding.history, Run.IsBlockRun, Setting.Setting};
ghost use Rattle.alone_laws.specs.{Blocks.IsPlaceOf, Entering.IsIn, Pointers.LiesBeside, Retries.Retries};
ghost use Rattle.alone_laws.specs.Undisturbed.{Brings, IsUndisturbed, executed_on};
ghost use Rattle.alone_laws.specs.Uses.{AlwaysOutside, CanAlwaysBegin, Placed, in_block};
ghost use Rattle.alone_laws.specs.Spans.{code_of};
ghost use Rattle.elf_load.specs.{Images.IsImage, declared.image.Image.Image, declared.image.ImagePage.ImagePage};
ghost use Rattle.rv_asm.specs.Assembly.{AreAssembled, Assembly};
ghost use Rattle.rv_inst.specs.{Table.row_of, declared.instruction.Inst.Inst};
ghost use Rattle.percpu_lib.specs.Bindings.{AreBound, AreLabelsOf, word_before_abort};
ghost use Rattle.percpu_lib.specs.Forms.{HoldsBlock, IsCommitted, IsLeftFrom, SharesAreaWith, block_of, committed};
ghost use Rattle.percpu_lib.specs.Forms.{placed_of, range_of};
ghost use Rattle.percpu_lib.specs.Kinds.{Kind, form_of, frees, lines_of, takes_in};
ghost use Rattle.percpu_lib.specs.Lines.{AreEmitted, HasRoom, IsContinued};
ghost use Rattle.percpu_lib.specs.{Beside.IsOfLibrary, Files.HoldsCode, Words.AreHeld};
ghost use Rattle.percpu_lib.specs.declared.slots.Slots.{Slots};

/// In a block run a restartable sequence of a block of the library has the effect of its kind once, where its
/// thread is at the post-commit address after it, and else that of one that isn't whole.
pub fn blocks_work_once_or_not_at_all()
    ensures whole { (k : Kind) (s : Setting) (log : List Entry) (p : Slots) (at : ℕ) (area : Area) (h : ℕ) (q : Sequence)
        → IsBlockRun s log → HoldsBlock s (history s log) (form_of k p) at area q.thread
        → sequence_on s h (history s log) ≡ Some q → IsIn s (range_of (form_of k p) at) q.thread q.begun
        → (file s q.thread q.reached).pc ≡ at + 4 * committed (form_of k p)
        → (form_of k p).Whole s h q.thread q.begun q.reached }
    ensures not_whole { (k : Kind) (s : Setting) (log : List Entry) (p : Slots) (at : ℕ) (area : Area) (h : ℕ)
        (q : Sequence)
        → IsBlockRun s log → HoldsBlock s (history s log) (form_of k p) at area q.thread
        → sequence_on s h (history s log) ≡ Some q → IsIn s (range_of (form_of k p) at) q.thread q.begun
        → (file s q.thread q.reached).pc ≢ at + 4 * committed (form_of k p)
        → (form_of k p).Partial s h q.thread q.begun q.reached }
{}

/// In a block run a restartable sequence of a block of the library ends 'left' where its thread is at the
/// post-commit address after it; and one that ends 'left' leads there, or back to the retry label.
pub fn blocks_that_commit_are_left()
    // where an event of its hart comes behind it
    ensures followed { (k : Kind) (s : Setting) (log : List Entry) (entry : Entry) (p : Slots) (at : ℕ) (area : Area)
        (h : ℕ) (q : Sequence)
        → IsBlockRun s (log ++ entry ∷ []) → HoldsBlock s (history s (log ++ entry ∷ [])) (form_of k p) at area q.thread
        → entry.hart.0 ≡ h → sequence_on s h (history s log) ≡ Some q
        → IsIn s (range_of (form_of k p) at) q.thread q.begun
        → IsLeftFrom (at + 4 * committed (form_of k p)) at (file s q.thread q.reached).pc
        (end_before s q (event s (history s log) entry) (history s log)) }
    // where none does, and the block's bytes and descriptor still stand
    ensures last { (k : Kind) (s : Setting) (log : List Entry) (p : Slots) (at : ℕ) (area : Area) (h : ℕ) (q : Sequence)
        → IsBlockRun s log → HoldsBlock s (history s log) (form_of k p) at area q.thread
        → sequence_on s h (history s log) ≡ Some q → IsIn s (range_of (form_of k p) at) q.thread q.begun
        → IsPlaceOf s (block_of s (form_of k p) at area h q.thread q.begun) h q.thread (history s log)
        → IsLeftFrom (at + 4 * committed (form_of k p)) at (file s q.thread q.reached).pc
        (end_so_far s q (history s log)) }
{}

/// In a block run an instruction of a block of the library changes no register but those that the block may
/// change, whether or not a sequence is open.
pub fn blocks_keep_registers()
    ensures { (k : Kind) (s : Setting) (log : List Entry) (entry : Entry) (p : Slots) (at : ℕ) (area : Area) (t r : ℕ)
        → IsBlockRun s (log ++ entry ∷ []) → HoldsBlock s (history s (log ++ entry ∷ [])) (form_of k p) at area t
        → entry.kind ≡ event_kind.Exec → running s entry.hart.0 (history s log) ≡ Some t
        → in_block (placed_of (form_of k p) at area) (file s t (history s log)).pc ≡ true → (form_of k p).may r ≡ false
        → register (file s t (history s (log ++ entry ∷ []))).file r ≡ register (file s t (history s log)).file r }
{}

/// In a block run a thread is inside no sequence where it runs before the sequence of a block of the library
/// and can begin it: where nobody writes the pointer of its area but its own instructions just before the
/// starts of this block and of others beside it, and the kernel.
pub fn blocks_begin_outside()
    ensures { (k : Kind) (s : Setting) (log : List Entry) (p : Slots) (at : ℕ) (area : Area) (t : ℕ)
        (others : List Placed)
        → IsBlockRun s log → HoldsBlock s (history s log) (form_of k p) at area t
        → CanAlwaysBegin s (placed_of (form_of k p) at area) t (history s log)
        → SharesAreaWith s (history s log) (placed_of (form_of k p) at area) t others
        → AlwaysOutside s (placed_of (form_of k p) at area) t (history s log) }
{}

/// In a block run a thread that is at the retry label of a block of the library, and whose hart from there on
/// executes instructions and lets stores enter memory and does nothing else, is at the post-commit address
/// after one of its first instructions, of which there are as many as words stand before that address, by a
/// sequence that is whole.
pub fn blocks_are_done()
    // at most 32
    ensures few { (k : Kind) (p : Slots) → committed (form_of k p) ≤ 32 }
    // where only blocks and the kernel write the pointer of the area
    ensures shared { (k : Kind) (s : Setting) (log stretch : List Entry) (p : Slots) (at : ℕ) (area : Area) (h t : ℕ)
        (others : List Placed)
        → IsBlockRun s (log ++ stretch) → HoldsBlock s (history s (log ++ stretch)) (form_of k p) at area t
        → CanAlwaysBegin s (placed_of (form_of k p) at area) t (history s (log ++ stretch))
        → SharesAreaWith s (history s (log ++ stretch)) (placed_of (form_of k p) at area) t others
        → running s h (history s log) ≡ Some t → (file s t (history s log)).pc ≡ at
        → IsUndisturbed h stretch → committed (form_of k p) ≤ executed_on h stretch
        → Brings s h (committed (form_of k p)) (IsCommitted s (form_of k p) at h t) log stretch }
    // and wherever the thread is inside no sequence before the block's own
    ensures outside { (k : Kind) (s : Setting) (log stretch : List Entry) (p : Slots) (at : ℕ) (area : Area) (h t : ℕ)
        → IsBlockRun s (log ++ stretch) → HoldsBlock s (history s (log ++ stretch)) (form_of k p) at area t
        → CanAlwaysBegin s (placed_of (form_of k p) at area) t (history s (log ++ stretch))
        → AlwaysOutside s (placed_of (form_of k p) at area) t (history s (log ++ stretch))
        → running s h (history s log) ≡ Some t → (file s t (history s log)).pc ≡ at
        → IsUndisturbed h stretch → committed (form_of k p) ≤ executed_on h stretch
        → Brings s h (committed (form_of k p)) (IsCommitted s (form_of k p) at h t) log stretch }
{}

/// In a block run each retry of a block that takes a value in works on the value that came in: wherever the
/// thread, in its walks in the block, one after another from its retry label on, is at the retry label or at
/// the start, the value is what it was there: the 64 bits of it that a machine's register has (RISC-V, RV64I).
pub fn retries_work_on_the_value()
    ensures bits { (k : Kind) (s : Setting) (first log later : List Entry) (p : Slots) (at : ℕ) (area : Area) (t : ℕ)
        → takes_in k ≡ true → IsBlockRun s (log ++ later)
        → HoldsBlock s (history s (log ++ later)) (form_of k p) at area t
        → Retries s (placed_of (form_of k p) at area) t first log
        → ((file s t (history s log)).pc ≡ at) ⊎ ((file s t (history s log)).pc ≡ at + 4 * (form_of k p).first)
        → register (file s t (history s log)).file p.value % 2 ^ 64
        ≡ register (file s t (history s first)).file p.value % 2 ^ 64 }
    // and so is the number in the register: that of a free, which brings 64 bits back, where it has no more
    ensures number { (k : Kind) (s : Setting) (first log later : List Entry) (p : Slots) (at : ℕ) (area : Area) (t : ℕ)
        → takes_in k ≡ true → IsBlockRun s (log ++ later)
        → HoldsBlock s (history s (log ++ later)) (form_of k p) at area t
        → Retries s (placed_of (form_of k p) at area) t first log
        → (k ≡ frees → register (file s t (history s first)).file p.value < 2 ^ 64)
        → ((file s t (history s log)).pc ≡ at) ⊎ ((file s t (history s log)).pc ≡ at + 4 * (form_of k p).first)
        → register (file s t (history s log)).file p.value ≡ register (file s t (history s first)).file p.value }
{}

/// Once the lines of a block of the library were appended where its labels were free, and whatever was appended
/// behind them, its labels are bound to these words and no others; and a descriptor that is written from their
/// places names the sequence on which the laws of runs stand.
pub fn labels_of_blocks_are_those_of_their_sequences()
    ensures bound { (kind : Kind) (p : Slots) (base : ℕ) (a b c : Assembly) → HasRoom a.labels base
        → AreEmitted (lines_of kind p base) a b → IsContinued b c
        → AreBound (form_of kind p) base (length a.items) c.labels }
    // in code whose first word is at an address
    ensures placed { (kind : Kind) (p : Slots) (base at : ℕ) (a b c : Assembly) → HasRoom a.labels base
        → AreEmitted (lines_of kind p base) a b → IsContinued b c
        → AreLabelsOf (range_of (form_of kind p) (at + 4 * length a.items)) at base c.labels }
{}

/// The word before the abort address of a block of the library is the signature (rseq(2)): in finished code to
/// which its lines were appended, and in memory where that code stands in a file.
pub fn blocks_are_signed()
    ensures code { (kind : Kind) (p : Slots) (base : ℕ) (a b c : Assembly) (bytes : List ℕ)
        → HasRoom a.labels base → AreEmitted (lines_of kind p base) a b → IsContinued b c
        → (code : AreAssembled c.labels c.items bytes)
        → slice_get code.words (length a.items + (committed (form_of kind p) + 1)) ≡ Some 0xF1401073 }
    ensures file { (kind : Kind) (p : Slots) (base at : ℕ) (a b c : Assembly) (bytes file : List ℕ) (image : Image)
        → HasRoom a.labels base → AreEmitted (lines_of kind p base) a b → IsContinued b c
        → AreAssembled c.labels c.items bytes → IsImage file image → HoldsCode file at bytes
        → word_before_abort image.pages.items (range_of (form_of kind p) (at + 4 * length a.items))
        ≡ Some 0xF1401073 }
{}

/// Finished code holds a block of the library where its lines were appended, whatever was appended behind
/// them: word k of it is of instruction k of the words on which the laws of runs stand.
pub fn finished_code_holds_block()
    ensures { (kind : Kind) (p : Slots) (base k w : ℕ) (a b c : Assembly) (bytes : List ℕ) (i : Inst)
        → HasRoom a.labels base → AreEmitted (lines_of kind p base) a b → IsContinued b c
        → (code : AreAssembled c.labels c.items bytes) → slice_get (form_of kind p).words k ≡ Some (Some i)
        → slice_get code.words (length a.items + k) ≡ Some w → row_of w ≡ Some i }
{}

/// So the program of a file holds a block of the library where finished code stands to which its lines were
/// appended.
pub fn files_hold_block()
    ensures { (kind : Kind) (p : Slots) (base at : ℕ) (a b c : Assembly) (bytes file : List ℕ) (image : Image)
        → HasRoom a.labels base → AreEmitted (lines_of kind p base) a b → IsContinued b c
        → AreAssembled c.labels c.items bytes → IsImage file image → HoldsCode file at bytes
        → AreHeld (code_of image.pages.items) (at + 4 * length a.items) (form_of kind p).words }
{}

/// No sequence of a block of the library has a word of a block of the library before that one's sequence,
/// wherever both stand in a program.
pub fn all_blocks_lie_beside()
    ensures { (k : Kind) (pages : List ImagePage) (p : Slots) (at : ℕ) (area : Area) (other : Placed)
        → AreHeld (code_of pages) at (form_of k p).words → at < 2 ^ 37 → IsOfLibrary (code_of pages) other
        → LiesBeside (placed_of (form_of k p) at area) other }
{}

/// A block whose words stand in a program is of the library there, so that the laws of what lies beside one another
/// speak of it.
pub fn blocks_are_of_the_library()
    ensures { (k : Kind) (pages : List ImagePage) (p : Slots) (at : ℕ) (area : Area)
        → AreHeld (code_of pages) at (form_of k p).words → (range_of (form_of k p) at).start < 2 ^ 37
        → p.table < 0x7FFFF800 → IsOfLibrary (code_of pages) (placed_of (form_of k p) at area) }
{}
