//! What the ring blocks do in runs, each as the contract of a function that does nothing.

ghost use Rattle.std.specs.Prelude.{ℕ, List, [], ◌∷◌, ◌++◌, Some, false, true, length, slice_get};
ghost use Rattle.std.specs.Prelude.{◌+◌, ◌-◌, ◌*◌, ◌^◌, ◌<◌, ◌≡◌, ◌≢◌, ◌≤◌, ◌⊎◌};
ghost use Rattle.mach_types.specs.{Registers.register, declared.events.Entry.Entry, declared.sequences.Area.Area};
ghost use Rattle.mach_types.specs.declared.events.Kind.TheVariants as event_kind;
ghost use Rattle.block_model.specs.Acts.{Sequence, end_before, end_so_far, sequence_on};
ghost use Rattle.block_model.specs.History.{file, running, stores};
ghost use Rattle.block_model.specs.{Deciding.event, Deciding.history, Run.IsBlockRun, Setting.Setting};
ghost use Rattle.alone_laws.specs.{Blocks.IsPlaceOf, Entering.IsIn, Pointers.LiesBeside, Retries.Retries};
ghost use Rattle.alone_laws.specs.Spans.{code_of};
ghost use Rattle.alone_laws.specs.Undisturbed.{Brings, IsUndisturbed, executed_on};
ghost use Rattle.alone_laws.specs.Uses.{AlwaysOutside, CanAlwaysBegin, Placed, in_block};
ghost use Rattle.percpu_lib.specs.Forms.{HoldsBlock, IsCommitted, IsLeftFrom, SharesAreaWith, block_of, committed};
ghost use Rattle.percpu_lib.specs.Forms.{placed_of, range_of};
ghost use Rattle.elf_load.specs.{Images.IsImage, declared.image.Image.Image, declared.image.ImagePage.ImagePage};
ghost use Rattle.rv_asm.specs.Assembly.{AreAssembled, Assembly};
ghost use Rattle.rv_inst.specs.{Table.row_of, declared.instruction.Inst.Inst};
ghost use Rattle.percpu_lib.specs.Beside.{IsOfLibrary};
ghost use Rattle.percpu_lib.specs.Bindings.{AreBound, AreLabelsOf, word_before_abort};
ghost use Rattle.percpu_lib.specs.Files.{HoldsCode};
ghost use Rattle.percpu_lib.specs.Lines.{AreEmitted, HasRoom, IsContinued};
ghost use Rattle.percpu_lib.specs.{Frees.value_of, Pushes.word_seen};
ghost use Rattle.percpu_lib.specs.RingForms.{ring_at, ring_get_form, ring_put_form, slot_of};
ghost use Rattle.percpu_lib.specs.RingKinds.{RingKind, ring_form_of, ring_lines_of};
ghost use Rattle.percpu_lib.specs.{Used.IsWellUsed, Uses.cells_of, Words.AreHeld};
ghost use Rattle.percpu_lib.specs.declared.slots.Slots.{Slots};

/// In a block run a restartable sequence of a ring block puts its words into the ring of its processor, or
/// gets them out of it, once, where its thread is at the post-commit address after it; where there is no
/// room, or where there are fewer words, its value is 0 then and nothing else changed. Else head, tail and
/// contents are as they were; a put may have changed slots behind the tail, and a get the words at the
/// value.
pub fn rings_work_once_or_not_at_all()
    ensures whole { (k : RingKind) (count : ℕ) (s : Setting) (log : List Entry) (p : Slots) (at : ℕ) (area : Area) (h : ℕ)
        (q : Sequence)
        → 1 ≤ count → count ≤ 4
        → IsBlockRun s log → HoldsBlock s (history s log) (ring_form_of k count p) at area q.thread
        → sequence_on s h (history s log) ≡ Some q → IsIn s (range_of (ring_form_of k count p) at) q.thread q.begun
        → (file s q.thread q.reached).pc ≡ at + 4 * committed (ring_form_of k count p)
        → (ring_form_of k count p).Whole s h q.thread q.begun q.reached }
    ensures not_whole { (k : RingKind) (count : ℕ) (s : Setting) (log : List Entry) (p : Slots) (at : ℕ) (area : Area)
        (h : ℕ) (q : Sequence)
        → 1 ≤ count → count ≤ 4
        → IsBlockRun s log → HoldsBlock s (history s log) (ring_form_of k count p) at area q.thread
        → sequence_on s h (history s log) ≡ Some q → IsIn s (range_of (ring_form_of k count p) at) q.thread q.begun
        → (file s q.thread q.reached).pc ≢ at + 4 * committed (ring_form_of k count p)
        → (ring_form_of k count p).Partial s h q.thread q.begun q.reached }
{}

/// In a block run a restartable sequence of a ring block ends 'left' where its thread is at the post-commit
/// address after it; and one that ends 'left' leads there, or back to the retry label.
pub fn rings_that_commit_are_left()
    // where an event of its hart comes behind it
    ensures followed { (k : RingKind) (count : ℕ) (s : Setting) (log : List Entry) (entry : Entry) (p : Slots) (at : ℕ)
        (area : Area) (h : ℕ) (q : Sequence)
        → 1 ≤ count → count ≤ 4 → IsBlockRun s (log ++ entry ∷ [])
        → HoldsBlock s (history s (log ++ entry ∷ [])) (ring_form_of k count p) at area q.thread
        → entry.hart.0 ≡ h → sequence_on s h (history s log) ≡ Some q
        → IsIn s (range_of (ring_form_of k count p) at) q.thread q.begun
        → IsLeftFrom (at + 4 * committed (ring_form_of k count p)) at (file s q.thread q.reached).pc
        (end_before s q (event s (history s log) entry) (history s log)) }
    // where none does, and the block's bytes and descriptor still stand
    ensures last { (k : RingKind) (count : ℕ) (s : Setting) (log : List Entry) (p : Slots) (at : ℕ) (area : Area) (h : ℕ)
        (q : Sequence)
        → 1 ≤ count → count ≤ 4
        → IsBlockRun s log → HoldsBlock s (history s log) (ring_form_of k count p) at area q.thread
        → sequence_on s h (history s log) ≡ Some q → IsIn s (range_of (ring_form_of k count p) at) q.thread q.begun
        → IsPlaceOf s (block_of s (ring_form_of k count p) at area h q.thread q.begun) h q.thread (history s log)
        → IsLeftFrom (at + 4 * committed (ring_form_of k count p)) at (file s q.thread q.reached).pc
        (end_so_far s q (history s log)) }
{}

/// In a block run an instruction of a ring block changes no register but its value's and those that every
/// block may change, whether or not a sequence is open.
pub fn rings_keep_registers()
    ensures { (k : RingKind) (count : ℕ) (s : Setting) (log : List Entry) (entry : Entry) (p : Slots) (at : ℕ)
        (area : Area) (t r : ℕ)
        → count ≤ 4 → IsBlockRun s (log ++ entry ∷ [])
        → HoldsBlock s (history s (log ++ entry ∷ [])) (ring_form_of k count p) at area t
        → entry.kind ≡ event_kind.Exec → running s entry.hart.0 (history s log) ≡ Some t
        → in_block (placed_of (ring_form_of k count p) at area) (file s t (history s log)).pc ≡ true
        → (ring_form_of k count p).may r ≡ false
        → register (file s t (history s (log ++ entry ∷ []))).file r ≡ register (file s t (history s log)).file r }
{}

/// In a block run a thread is inside no sequence where it runs before the sequence of a ring block and can
/// begin it: where nobody writes the pointer of its area but its own instructions just before the starts of
/// this block and of others beside it, and the kernel.
pub fn rings_begin_outside()
    ensures { (k : RingKind) (count : ℕ) (s : Setting) (log : List Entry) (p : Slots) (at : ℕ) (area : Area) (t : ℕ)
        (others : List Placed)
        → count ≤ 4
        → IsBlockRun s log → HoldsBlock s (history s log) (ring_form_of k count p) at area t
        → CanAlwaysBegin s (placed_of (ring_form_of k count p) at area) t (history s log)
        → SharesAreaWith s (history s log) (placed_of (ring_form_of k count p) at area) t others
        → AlwaysOutside s (placed_of (ring_form_of k count p) at area) t (history s log) }
{}

/// In a block run a thread that is at the retry label of a ring block, and whose hart from there on
/// executes instructions and lets stores enter memory and does nothing else, is at the post-commit address
/// after one of its first instructions, of which there are as many as words stand before that address, by a
/// sequence that is whole.
pub fn rings_are_done()
    // at most 64
    ensures few { (k : RingKind) (count : ℕ) (p : Slots) → count ≤ 4 → committed (ring_form_of k count p) ≤ 64 }
    // where only blocks and the kernel write the pointer of the area
    ensures shared { (k : RingKind) (count : ℕ) (s : Setting) (log stretch : List Entry) (p : Slots) (at : ℕ)
        (area : Area) (h t : ℕ) (others : List Placed)
        → 1 ≤ count → count ≤ 4 → IsBlockRun s (log ++ stretch)
        → HoldsBlock s (history s (log ++ stretch)) (ring_form_of k count p) at area t
        → CanAlwaysBegin s (placed_of (ring_form_of k count p) at area) t (history s (log ++ stretch))
        → SharesAreaWith s (history s (log ++ stretch)) (placed_of (ring_form_of k count p) at area) t others
        → running s h (history s log) ≡ Some t → (file s t (history s log)).pc ≡ at
        → IsUndisturbed h stretch → committed (ring_form_of k count p) ≤ executed_on h stretch
        → Brings s h (committed (ring_form_of k count p)) (IsCommitted s (ring_form_of k count p) at h t) log stretch }
    // and wherever the thread is inside no sequence before the block's own
    ensures outside { (k : RingKind) (count : ℕ) (s : Setting) (log stretch : List Entry) (p : Slots) (at : ℕ)
        (area : Area) (h t : ℕ)
        → 1 ≤ count → count ≤ 4 → IsBlockRun s (log ++ stretch)
        → HoldsBlock s (history s (log ++ stretch)) (ring_form_of k count p) at area t
        → CanAlwaysBegin s (placed_of (ring_form_of k count p) at area) t (history s (log ++ stretch))
        → AlwaysOutside s (placed_of (ring_form_of k count p) at area) t (history s (log ++ stretch))
        → running s h (history s log) ≡ Some t → (file s t (history s log)).pc ≡ at
        → IsUndisturbed h stretch → committed (ring_form_of k count p) ≤ executed_on h stretch
        → Brings s h (committed (ring_form_of k count p)) (IsCommitted s (ring_form_of k count p) at h t) log stretch }
{}

/// In a block run each retry of a ring block works on the value that came in: wherever the thread, in its
/// walks in the block, one after another from its retry label on, is at the retry label or at the start,
/// the value is what it was there.
pub fn retries_of_rings_work_on_the_value()
    ensures { (k : RingKind) (count : ℕ) (s : Setting) (first log later : List Entry) (p : Slots) (at : ℕ) (area : Area)
        (t : ℕ)
        → 1 ≤ count → count ≤ 4 → IsBlockRun s (log ++ later)
        → HoldsBlock s (history s (log ++ later)) (ring_form_of k count p) at area t
        → Retries s (placed_of (ring_form_of k count p) at area) t first log
        → ((file s t (history s log)).pc ≡ at)
        ⊎ ((file s t (history s log)).pc ≡ at + 4 * (ring_form_of k count p).first)
        → register (file s t (history s log)).file p.value ≡ register (file s t (history s first)).file p.value }
{}

/// Once the lines of a ring block were appended where its labels were free, and whatever was appended
/// behind them, its labels are bound to these words and no others; and a descriptor that is written from
/// their places names the sequence on which the laws of runs stand.
pub fn labels_of_rings_are_those_of_their_sequences()
    ensures bound { (k : RingKind) (count : ℕ) (p : Slots) (base : ℕ) (a b c : Assembly) → HasRoom a.labels base
        → AreEmitted (ring_lines_of k count p base) a b → IsContinued b c
        → AreBound (ring_form_of k count p) base (length a.items) c.labels }
    // in code whose first word is at an address
    ensures placed { (k : RingKind) (count : ℕ) (p : Slots) (base at : ℕ) (a b c : Assembly) → HasRoom a.labels base
        → AreEmitted (ring_lines_of k count p base) a b → IsContinued b c
        → AreLabelsOf (range_of (ring_form_of k count p) (at + 4 * length a.items)) at base c.labels }
{}

/// The word before the abort address of a ring block is the signature (rseq(2)): in finished code to which
/// its lines were appended, and in memory where that code stands in a file.
pub fn rings_are_signed()
    ensures code { (k : RingKind) (count : ℕ) (p : Slots) (base : ℕ) (a b c : Assembly) (bytes : List ℕ)
        → HasRoom a.labels base → AreEmitted (ring_lines_of k count p base) a b → IsContinued b c
        → (code : AreAssembled c.labels c.items bytes)
        → slice_get code.words (length a.items + (committed (ring_form_of k count p) + 1)) ≡ Some 0xF1401073 }
    ensures file { (k : RingKind) (count : ℕ) (p : Slots) (base at : ℕ) (a b c : Assembly) (bytes file : List ℕ)
        (image : Image)
        → HasRoom a.labels base → AreEmitted (ring_lines_of k count p base) a b → IsContinued b c
        → AreAssembled c.labels c.items bytes → IsImage file image → HoldsCode file at bytes
        → word_before_abort image.pages.items (range_of (ring_form_of k count p) (at + 4 * length a.items))
        ≡ Some 0xF1401073 }
{}

/// Finished code holds a ring block where its lines were appended, whatever was appended behind them: word
/// n of it is of instruction n of the words on which the laws of runs stand.
pub fn finished_code_holds_ring()
    ensures { (k : RingKind) (count : ℕ) (p : Slots) (base n w : ℕ) (a b c : Assembly) (bytes : List ℕ) (i : Inst)
        → HasRoom a.labels base → AreEmitted (ring_lines_of k count p base) a b → IsContinued b c
        → (code : AreAssembled c.labels c.items bytes) → slice_get (ring_form_of k count p).words n ≡ Some (Some i)
        → slice_get code.words (length a.items + n) ≡ Some w → row_of w ≡ Some i }
{}

/// So the program of a file holds a ring block where finished code stands to which its lines were appended.
pub fn files_hold_ring()
    ensures { (k : RingKind) (count : ℕ) (p : Slots) (base at : ℕ) (a b c : Assembly) (bytes file : List ℕ) (image : Image)
        → HasRoom a.labels base → AreEmitted (ring_lines_of k count p base) a b → IsContinued b c
        → AreAssembled c.labels c.items bytes → IsImage file image → HoldsCode file at bytes
        → AreHeld (code_of image.pages.items) (at + 4 * length a.items) (ring_form_of k count p).words }
{}

/// No sequence of a block of the library has a word of a ring block before that one's sequence, wherever
/// both stand in a program.
pub fn ring_blocks_lie_beside()
    ensures { (k : RingKind) (count : ℕ) (pages : List ImagePage) (p : Slots) (at : ℕ) (area : Area) (other : Placed)
        → AreHeld (code_of pages) at (ring_form_of k count p).words → at < 2 ^ 37 → IsOfLibrary (code_of pages) other
        → LiesBeside (placed_of (ring_form_of k count p) at area) other }
{}

/// A ring block whose words stand in a program is of the library there, so that the laws of what lies
/// beside one another speak of it.
pub fn rings_are_of_the_library()
    ensures { (k : RingKind) (count : ℕ) (pages : List ImagePage) (p : Slots) (at : ℕ) (area : Area)
        → 1 ≤ count → count ≤ 4 → AreHeld (code_of pages) at (ring_form_of k count p).words
        → (range_of (ring_form_of k count p) at).start < 2 ^ 37 → p.table < 0x7FFFF800
        → IsOfLibrary (code_of pages) (placed_of (ring_form_of k count p) at area) }
{}

/// What the laws of runs ask of ring blocks can be met: there is a block run in which a thread uses both
/// with one area, their values in a0, on a ring whose head and tail are 2^64 - 1. It is preempted in a put of
/// two words behind the store to the first slot, begins anew, and puts both; it gets them; and it finds the
/// ring empty. And there is one in which a thread is to put a word into a ring of 512 words, whose head is
/// 2^64 - 1.
pub fn ring_blocks_are_used()
    // where the sequence was cut slot 511 was 7, and the tail as before; now slots 511 and 0 are 7 and 9, and
    // the tail is 1
    ensures put { (s : Setting) × (cut rest : List Entry) × (p : Slots) × (at : ℕ) × (area : Area)
        × (others : List Placed) × (torn q : Sequence)
        × IsWellUsed s (cut ++ rest) (ring_put_form 2 p) at area others q × (p.value ≡ 10)
        × (sequence_on s 0 (history s cut) ≡ Some torn) × (torn.thread ≡ q.thread)
        × IsIn s (range_of (ring_put_form 2 p) at) torn.thread torn.begun
        × ((file s torn.thread torn.reached).pc ≡ at + 88)
        × (word_seen s 0 (slot_of (ring_at (cells_of s p torn.thread torn.begun) 0) 511) torn.reached ≡ Some 7)
        × (word_seen s 0 (ring_at (cells_of s p torn.thread torn.begun) 0 + 8) torn.reached ≡ Some (2 ^ 64 - 1))
        × (word_seen s 0 (slot_of (ring_at (cells_of s p q.thread q.begun) 0) 511) q.reached ≡ Some 7)
        × (word_seen s 0 (slot_of (ring_at (cells_of s p q.thread q.begun) 0) 0) q.reached ≡ Some 9)
        × (word_seen s 0 (ring_at (cells_of s p q.thread q.begun) 0 + 8) q.reached ≡ Some 1) }
    // the words at the value are 7 and 9, and the head is 1
    ensures get { (s : Setting) × (log : List Entry) × (p : Slots) × (at : ℕ) × (area : Area) × (others : List Placed)
        × (q : Sequence) × IsWellUsed s log (ring_get_form 2 p) at area others q × (p.value ≡ 10)
        × (word_seen s 0 (value_of s p q.thread q.begun) q.reached ≡ Some 7)
        × (word_seen s 0 (value_of s p q.thread q.begun + 8) q.reached ≡ Some 9)
        × (word_seen s 0 (ring_at (cells_of s p q.thread q.begun) 0) q.reached ≡ Some 1) }
    // the value is 0, and no store was executed
    ensures none { (s : Setting) × (log : List Entry) × (p : Slots) × (at : ℕ) × (area : Area) × (others : List Placed)
        × (q : Sequence) × IsWellUsed s log (ring_get_form 2 p) at area others q × (p.value ≡ 10)
        × (value_of s p q.thread q.reached ≡ 0) × (length (stores 0 q.reached) ≡ length (stores 0 q.begun)) }
    // the value is 0, head and tail are as before, and no store was executed
    ensures full { (s : Setting) × (log : List Entry) × (p : Slots) × (at : ℕ) × (area : Area) × (others : List Placed)
        × (q : Sequence) × IsWellUsed s log (ring_put_form 1 p) at area others q
        × (value_of s p q.thread q.reached ≡ 0)
        × (word_seen s 0 (ring_at (cells_of s p q.thread q.begun) 0) q.reached ≡ Some (2 ^ 64 - 1))
        × (word_seen s 0 (ring_at (cells_of s p q.thread q.begun) 0 + 8) q.reached ≡ Some 511)
        × (length (stores 0 q.reached) ≡ length (stores 0 q.begun)) }
    // and what `retries_of_rings_work_on_the_value` and `rings_are_done` ask, of the put that was cut
    ensures retried { (s : Setting) × (first log later : List Entry) × (p : Slots) × (at : ℕ) × (area : Area) × (t : ℕ)
        × (others : List Placed)
        × IsBlockRun s (log ++ later) × HoldsBlock s (history s (log ++ later)) (ring_put_form 2 p) at area t
        × CanAlwaysBegin s (placed_of (ring_put_form 2 p) at area) t (history s (log ++ later))
        × SharesAreaWith s (history s (log ++ later)) (placed_of (ring_put_form 2 p) at area) t others
        × Retries s (placed_of (ring_put_form 2 p) at area) t first log
        × (running s 0 (history s log) ≡ Some t) × ((file s t (history s log)).pc ≡ at)
        × IsUndisturbed 0 later × (committed (ring_put_form 2 p) ≤ executed_on 0 later) }
{}
