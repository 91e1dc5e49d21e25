//! What the blocks of a cell, a list and a pool do in runs, each law as the contract of a function that does
//! nothing.

ghost use Rattle.std.specs.Prelude.{ℕ, List, [], ◌∷◌, ◌++◌, Some, length, slice_get, true, false, ◌+◌, ◌*◌};
ghost use Rattle.std.specs.Prelude.{◌<◌, ◌^◌, ◌≡◌, ◌≢◌, ◌≤◌, Option};
ghost use Rattle.mach_types.specs.{Registers.register, declared.events.Entry.Entry, declared.sequences.Area.Area};
ghost use Rattle.mach_types.specs.declared.events.Kind.TheVariants as kind;
ghost use Rattle.block_model.specs.Acts.{Sequence, end_before, end_so_far, sequence_on};
ghost use Rattle.block_model.specs.History.{file, running};
ghost use Rattle.block_model.specs.{Deciding.event, Deciding.history, Run.IsBlockRun, Setting.Setting};
ghost use Rattle.alone.specs.Temps.{is_scratch};
ghost use Rattle.alone_laws.specs.{Blocks.IsPlaceOf, Entering.IsIn, Pointers.LiesBeside, Retries.Retries};
ghost use Rattle.alone_laws.specs.Undisturbed.{Brings, IsUndisturbed, executed_on};
ghost use Rattle.alone_laws.specs.Uses.{AlwaysOutside, CanAlwaysBegin, HasLeft, Placed, in_block};
ghost use Rattle.alone_laws.specs.Spans.{code_of};
ghost use Rattle.block_model.specs.Instruction.{fetched};
ghost use Rattle.elf_load.specs.{Images.IsImage, declared.image.Image.Image, declared.image.ImagePage.ImagePage};
ghost use Rattle.rv_asm.specs.Assembly.{AreAssembled, Assembly};
ghost use Rattle.rv_asm.specs.declared.item.Item.{Item};
ghost use Rattle.rv_inst.specs.{Table.row_of, declared.instruction.Inst.Inst};
ghost use Rattle.percpu_lib.specs.Adds.{IsLeftAt, IsNoAdd, IsWholeAdd, add_block, add_lines, add_of};
ghost use Rattle.percpu_lib.specs.Adds.{add_range, cell_seen, placed_add};
ghost use Rattle.percpu_lib.specs.Beside.{IsOfLibrary};
ghost use Rattle.percpu_lib.specs.BlockLines.{HasNoLabel, IsLabelled, block_lines};
ghost use Rattle.percpu_lib.specs.Files.{HoldsCode};
ghost use Rattle.percpu_lib.specs.Lines.{AreEmitted, HasRoom, IsContinued};
ghost use Rattle.percpu_lib.specs.Uses.{HoldsAdd, IsAdded, SharesArea, cells_of};
ghost use Rattle.percpu_lib.specs.Words.{AreHeld};
ghost use Rattle.percpu_lib.specs.declared.lines.Line.{Line};
ghost use Rattle.percpu_lib.specs.declared.slots.Slots.{Slots};
ghost use Rattle.percpu_lib.specs.Forms.{HoldsBlock, SharesAreaWith, block_of, placed_of};
ghost use Rattle.percpu_lib.specs.Pushes.{HoldsPush, IsNoPush, IsPushed, IsWholePush, node_of, placed_push};
ghost use Rattle.percpu_lib.specs.Pushes.{push_form, word_seen};
ghost use Rattle.percpu_lib.specs.Pops.{IsNoPop, IsWholePop, pop_form, pop_range};
ghost use Rattle.percpu_lib.specs.Used.{IsWellUsed};
ghost use Rattle.percpu_lib.specs.Allocs.{IsNoAlloc, IsWholeAlloc, alloc_form, alloc_range};
ghost use Rattle.percpu_lib.specs.Frees.{IsNoFree, IsWholeFree, free_form, free_range};
ghost use Rattle.percpu_lib.specs.Pools.{count_seen, pool_at, slot_at};

/// In a block run a restartable sequence of an add block adds once, where its thread is at the post-commit
/// address after it, and else changes nothing but registers that a block may change.
pub fn adds_once_or_not_at_all()
    ensures whole { (s : Setting) (log : List Entry) (p : Slots) (at : ℕ) (area : Area) (h : ℕ) (q : Sequence)
        → IsBlockRun s log → HoldsAdd s (history s log) p at area q.thread
        → sequence_on s h (history s log) ≡ Some q → IsIn s (add_range at) q.thread q.begun
        → (file s q.thread q.reached).pc ≡ at + 44
        → IsWholeAdd s p (cells_of s p q.thread q.begun) h q.thread q.begun q.reached }
    ensures not_whole { (s : Setting) (log : List Entry) (p : Slots) (at : ℕ) (area : Area) (h : ℕ) (q : Sequence)
        → IsBlockRun s log → HoldsAdd s (history s log) p at area q.thread
        → sequence_on s h (history s log) ≡ Some q → IsIn s (add_range at) q.thread q.begun
        → (file s q.thread q.reached).pc ≢ at + 44
        → IsNoAdd s (cells_of s p q.thread q.begun) h q.thread q.begun q.reached }
{}

/// In a block run a restartable sequence of an add block ends 'left' where its thread is at the post-commit
/// address after it; and one that ends 'left' leads there, or back to the retry label.
pub fn adds_that_commit_are_left()
    // where an event of its hart comes behind it
    ensures followed { (s : Setting) (log : List Entry) (entry : Entry) (p : Slots) (at : ℕ) (area : Area) (h : ℕ)
        (q : Sequence)
        → IsBlockRun s (log ++ entry ∷ []) → HoldsAdd s (history s (log ++ entry ∷ [])) p at area q.thread
        → entry.hart.0 ≡ h → sequence_on s h (history s log) ≡ Some q → IsIn s (add_range at) q.thread q.begun
        → IsLeftAt at (file s q.thread q.reached).pc
        (end_before s q (event s (history s log) entry) (history s log)) }
    // where none does, and the block's bytes and descriptor still stand
    ensures last { (s : Setting) (log : List Entry) (p : Slots) (at : ℕ) (area : Area) (h : ℕ) (q : Sequence)
        → IsBlockRun s log → HoldsAdd s (history s log) p at area q.thread
        → sequence_on s h (history s log) ≡ Some q → IsIn s (add_range at) q.thread q.begun
        → IsPlaceOf s (add_of p at area (cells_of s p q.thread q.begun) h) h q.thread (history s log)
        → IsLeftAt at (file s q.thread q.reached).pc (end_so_far s q (history s log)) }
{}

/// In a block run an instruction of an add block changes no register but those that a block may change,
/// whether or not a sequence is open.
pub fn add_keeps_registers()
    ensures { (s : Setting) (log : List Entry) (entry : Entry) (p : Slots) (at : ℕ) (area : Area) (t r : ℕ)
        → IsBlockRun s (log ++ entry ∷ []) → HoldsAdd s (history s (log ++ entry ∷ [])) p at area t
        → entry.kind ≡ kind.Exec → running s entry.hart.0 (history s log) ≡ Some t
        → in_block (placed_add p at area) (file s t (history s log)).pc ≡ true → is_scratch r ≡ false
        → register (file s t (history s (log ++ entry ∷ []))).file r ≡ register (file s t (history s log)).file r }
{}

/// No sequence of a block of the library has a word of an add block before that one's sequence, wherever both
/// stand in a program.
pub fn blocks_lie_beside()
    ensures { (pages : List ImagePage) (p : Slots) (at : ℕ) (area : Area) (other : Placed)
        → AreHeld (code_of pages) at (add_block p) → at < 2 ^ 37 → IsOfLibrary (code_of pages) other
        → LiesBeside (placed_add p at area) other }
{}

/// In a block run a thread is inside no sequence where it runs before the sequence of an add block and can
/// begin it: where nobody writes the pointer of its area but its own instructions just before the starts of
/// this block and of others beside it, and the kernel.
pub fn adds_begin_outside()
    ensures { (s : Setting) (log : List Entry) (p : Slots) (at : ℕ) (area : Area) (t : ℕ) (others : List Placed)
        → IsBlockRun s log → HoldsAdd s (history s log) p at area t
        → CanAlwaysBegin s (placed_add p at area) t (history s log)
        → SharesArea s (history s log) p at area t others
        → AlwaysOutside s (placed_add p at area) t (history s log) }
{}

/// In a block run a thread that is at the retry label of an add block, and whose hart from there on executes
/// instructions and lets stores enter memory and does nothing else, is at the post-commit address after one
/// of its first 11 instructions, by a sequence that is whole.
pub fn adds_are_done()
    // where only blocks and the kernel write the pointer of the area
    ensures shared { (s : Setting) (log stretch : List Entry) (p : Slots) (at : ℕ) (area : Area) (h t : ℕ)
        (others : List Placed)
        → IsBlockRun s (log ++ stretch) → HoldsAdd s (history s (log ++ stretch)) p at area t
        → CanAlwaysBegin s (placed_add p at area) t (history s (log ++ stretch))
        → SharesArea s (history s (log ++ stretch)) p at area t others
        → running s h (history s log) ≡ Some t → (file s t (history s log)).pc ≡ at
        → IsUndisturbed h stretch → 11 ≤ executed_on h stretch
        → Brings s h 11 (IsAdded s p at h t) log stretch }
    // and wherever the thread is inside no sequence before the block's own
    ensures outside { (s : Setting) (log stretch : List Entry) (p : Slots) (at : ℕ) (area : Area) (h t : ℕ)
        → IsBlockRun s (log ++ stretch) → HoldsAdd s (history s (log ++ stretch)) p at area t
        → CanAlwaysBegin s (placed_add p at area) t (history s (log ++ stretch))
        → AlwaysOutside s (placed_add p at area) t (history s (log ++ stretch))
        → running s h (history s log) ≡ Some t → (file s t (history s log)).pc ≡ at
        → IsUndisturbed h stretch → 11 ≤ executed_on h stretch
        → Brings s h 11 (IsAdded s p at h t) log stretch }
{}

/// In a block run each retry of an add block works on the value that came in: at each place of the walks of a
/// thread in the block, one after another from its retry label on, the value is what it was there.
pub fn retries_of_add_keep_its_value()
    ensures { (s : Setting) (first log later : List Entry) (p : Slots) (at : ℕ) (area : Area) (t : ℕ)
        → IsBlockRun s (log ++ later) → HoldsAdd s (history s (log ++ later)) p at area t
        → Retries s (placed_add p at area) t first log
        → register (file s t (history s log)).file p.value ≡ register (file s t (history s first)).file p.value }
{}

/// Once the lines of a block were appended where its labels were free, they are bound: the retry label, the
/// start, the post-commit address, the abort address and the word after the block; and from the post-commit
/// address one jump leads to that word.
pub fn labels_of_blocks_are_bound()
    ensures { (p : Slots) (base shift : ℕ) (first inside aborted : List Line) (a b : Assembly)
        → AreEmitted (block_lines p base shift first inside aborted) a b → HasRoom a.labels base
        → HasNoLabel first → HasNoLabel inside → HasNoLabel aborted → IsLabelled base b }
{}

/// Finished code holds an add block where its lines were appended, whatever was appended behind them: word k
/// of the block is of instruction k of `add_block`.
pub fn finished_code_holds_add()
    ensures { (p : Slots) (base k w : ℕ) (a b c : Assembly) (bytes : List ℕ) (i : Inst) → HasRoom a.labels base
        → AreEmitted (add_lines p base) a b → IsContinued b c → (code : AreAssembled c.labels c.items bytes)
        → slice_get (add_block p) k ≡ Some (Some i) → slice_get code.words (length a.items + k) ≡ Some w
        → row_of w ≡ Some i }
{}

/// A machine that runs the image of a file fetches the words of finished code that stands in the file: word k
/// of it at the address of the code's first byte and 4 k.
pub fn finished_code_is_fetched()
    ensures { (labels : List (Option ℕ)) (items : List Item) (bytes file : List ℕ) (image : Image) (at k w : ℕ)
        → IsImage file image → HoldsCode file at bytes → (code : AreAssembled labels items bytes)
        → slice_get code.words k ≡ Some w → fetched image.pages.items (at + 4 * k) ≡ Some w }
{}

/// So the program of a file holds an add block where finished code stands to which its lines were appended.
pub fn files_hold_add()
    ensures { (p : Slots) (base at : ℕ) (a b c : Assembly) (bytes file : List ℕ) (image : Image)
        → HasRoom a.labels base → AreEmitted (add_lines p base) a b → IsContinued b c
        → AreAssembled c.labels c.items bytes → IsImage file image → HoldsCode file at bytes
        → AreHeld (code_of image.pages.items) (at + 4 * length a.items) (add_block p) }
{}

/// What `HoldsAdd` asks can be met: there is a block run in which a thread uses an add block so, and comes to
/// the post-commit address by a sequence of the block. The cell of its processor is 32 then.
pub fn add_blocks_are_used()
    ensures { (s : Setting) × (log : List Entry) × (p : Slots) × (at : ℕ) × (area : Area) × (h : ℕ) × (q : Sequence)
        × IsBlockRun s log × HoldsAdd s (history s log) p at area q.thread
        × (sequence_on s h (history s log) ≡ Some q) × IsIn s (add_range at) q.thread q.begun
        × ((file s q.thread q.reached).pc ≡ at + 44)
        × (cell_seen s h (cells_of s p q.thread q.begun) q.reached ≡ Some 32) }
{}

/// What `adds_are_done` and `retries_of_add_keep_its_value` ask can be met: there is a block run in which a
/// thread is at the retry label of an add block, is interrupted in the sequence, and is at the retry label
/// once more; and its hart from there on executes 11 instructions undisturbed.
pub fn aborted_adds_begin_anew()
    ensures { (s : Setting) × (first log stretch : List Entry) × (p : Slots) × (at : ℕ) × (area : Area) × (h t : ℕ)
        × IsBlockRun s (log ++ stretch) × HoldsAdd s (history s (log ++ stretch)) p at area t
        × CanAlwaysBegin s (placed_add p at area) t (history s (log ++ stretch))
        × SharesArea s (history s (log ++ stretch)) p at area t []
        × Retries s (placed_add p at area) t first log
        × (running s h (history s log) ≡ Some t) × ((file s t (history s log)).pc ≡ at)
        × IsUndisturbed h stretch × (11 ≤ executed_on h stretch) }
{}

/// What `HoldsAdd` asks can be met where a handler interrupts a block: there is a block run in which a signal
/// takes a thread out of an add block, before its sequence, and the handler returns to that word with the
/// registers that the thread had (`returned` is the run up to there); then a sequence of the block comes to
/// the post-commit address, and the cell is 32.
pub fn handlers_return_to_blocks()
    ensures { (s : Setting) × (returned rest : List Entry) × (p : Slots) × (at : ℕ) × (area : Area) × (q : Sequence)
        × IsBlockRun s (returned ++ rest) × HoldsAdd s (history s (returned ++ rest)) p at area q.thread
        × HasLeft s (placed_add p at area) q.thread (file s q.thread (history s returned)) (history s returned)
        × (sequence_on s 0 (history s (returned ++ rest)) ≡ Some q) × IsIn s (add_range at) q.thread q.begun
        × ((file s q.thread q.reached).pc ≡ at + 44)
        × (cell_seen s 0 (cells_of s p q.thread q.begun) q.reached ≡ Some 32) }
{}

/// In a block run a restartable sequence of a push block pushes its node once, where its thread is at the
/// post-commit address after it, and else changes nothing but the first word of the node and registers that a
/// block may change.
pub fn pushes_once_or_not_at_all()
    ensures whole { (s : Setting) (log : List Entry) (p : Slots) (at : ℕ) (area : Area) (h : ℕ) (q : Sequence)
        → IsBlockRun s log → HoldsPush s (history s log) p at area q.thread
        → sequence_on s h (history s log) ≡ Some q → IsIn s (add_range at) q.thread q.begun
        → (file s q.thread q.reached).pc ≡ at + 44
        → IsWholePush s (cells_of s p q.thread q.begun) (node_of s p q.thread q.begun) h q.thread q.begun q.reached }
    ensures not_whole { (s : Setting) (log : List Entry) (p : Slots) (at : ℕ) (area : Area) (h : ℕ) (q : Sequence)
        → IsBlockRun s log → HoldsPush s (history s log) p at area q.thread
        → sequence_on s h (history s log) ≡ Some q → IsIn s (add_range at) q.thread q.begun
        → (file s q.thread q.reached).pc ≢ at + 44
        → IsNoPush s (cells_of s p q.thread q.begun) (node_of s p q.thread q.begun) h q.thread q.begun q.reached }
{}

/// In a block run a restartable sequence of a push block ends 'left' where its thread is at the post-commit
/// address after it; and one that ends 'left' leads there, or back to the retry label.
pub fn pushes_that_commit_are_left()
    // where an event of its hart comes behind it
    ensures followed { (s : Setting) (log : List Entry) (entry : Entry) (p : Slots) (at : ℕ) (area : Area) (h : ℕ)
        (q : Sequence)
        → IsBlockRun s (log ++ entry ∷ []) → HoldsPush s (history s (log ++ entry ∷ [])) p at area q.thread
        → entry.hart.0 ≡ h → sequence_on s h (history s log) ≡ Some q → IsIn s (add_range at) q.thread q.begun
        → IsLeftAt at (file s q.thread q.reached).pc
        (end_before s q (event s (history s log) entry) (history s log)) }
    // where none does, and the block's bytes and descriptor still stand
    ensures last { (s : Setting) (log : List Entry) (p : Slots) (at : ℕ) (area : Area) (h : ℕ) (q : Sequence)
        → IsBlockRun s log → HoldsPush s (history s log) p at area q.thread
        → sequence_on s h (history s log) ≡ Some q → IsIn s (add_range at) q.thread q.begun
        → IsPlaceOf s (block_of s (push_form p) at area h q.thread q.begun) h q.thread (history s log)
        → IsLeftAt at (file s q.thread q.reached).pc (end_so_far s q (history s log)) }
{}

/// In a block run an instruction of a push block changes no register but those that a block may change,
/// whether or not a sequence is open.
pub fn push_keeps_registers()
    ensures { (s : Setting) (log : List Entry) (entry : Entry) (p : Slots) (at : ℕ) (area : Area) (t r : ℕ)
        → IsBlockRun s (log ++ entry ∷ []) → HoldsPush s (history s (log ++ entry ∷ [])) p at area t
        → entry.kind ≡ kind.Exec → running s entry.hart.0 (history s log) ≡ Some t
        → in_block (placed_push p at area) (file s t (history s log)).pc ≡ true → is_scratch r ≡ false
        → register (file s t (history s (log ++ entry ∷ []))).file r ≡ register (file s t (history s log)).file r }
{}

/// In a block run a thread is inside no sequence where it runs before the sequence of a push block and can
/// begin it: where nobody writes the pointer of its area but its own instructions just before the starts of
/// this block and of others beside it, and the kernel.
pub fn pushes_begin_outside()
    ensures { (s : Setting) (log : List Entry) (p : Slots) (at : ℕ) (area : Area) (t : ℕ) (others : List Placed)
        → IsBlockRun s log → HoldsPush s (history s log) p at area t
        → CanAlwaysBegin s (placed_push p at area) t (history s log)
        → SharesAreaWith s (history s log) (placed_push p at area) t others
        → AlwaysOutside s (placed_push p at area) t (history s log) }
{}

/// In a block run a thread that is at the retry label of a push block, and whose hart from there on executes
/// instructions and lets stores enter memory and does nothing else, is at the post-commit address after one
/// of its first 11 instructions, by a sequence that is whole.
pub fn pushes_are_done()
    // where only blocks and the kernel write the pointer of the area
    ensures shared { (s : Setting) (log stretch : List Entry) (p : Slots) (at : ℕ) (area : Area) (h t : ℕ)
        (others : List Placed)
        → IsBlockRun s (log ++ stretch) → HoldsPush s (history s (log ++ stretch)) p at area t
        → CanAlwaysBegin s (placed_push p at area) t (history s (log ++ stretch))
        → SharesAreaWith s (history s (log ++ stretch)) (placed_push p at area) t others
        → running s h (history s log) ≡ Some t → (file s t (history s log)).pc ≡ at
        → IsUndisturbed h stretch → 11 ≤ executed_on h stretch
        → Brings s h 11 (IsPushed s p at h t) log stretch }
    // and wherever the thread is inside no sequence before the block's own
    ensures outside { (s : Setting) (log stretch : List Entry) (p : Slots) (at : ℕ) (area : Area) (h t : ℕ)
        → IsBlockRun s (log ++ stretch) → HoldsPush s (history s (log ++ stretch)) p at area t
        → CanAlwaysBegin s (placed_push p at area) t (history s (log ++ stretch))
        → AlwaysOutside s (placed_push p at area) t (history s (log ++ stretch))
        → running s h (history s log) ≡ Some t → (file s t (history s log)).pc ≡ at
        → IsUndisturbed h stretch → 11 ≤ executed_on h stretch
        → Brings s h 11 (IsPushed s p at h t) log stretch }
{}

/// In a block run each retry of a push block works on the node that came in: at each place of the walks of a
/// thread in the block, one after another from its retry label on, the value is what it was there.
pub fn retries_of_push_keep_its_value()
    ensures { (s : Setting) (first log later : List Entry) (p : Slots) (at : ℕ) (area : Area) (t : ℕ)
        → IsBlockRun s (log ++ later) → HoldsPush s (history s (log ++ later)) p at area t
        → Retries s (placed_push p at area) t first log
        → register (file s t (history s log)).file p.value ≡ register (file s t (history s first)).file p.value }
{}

/// In a block run a restartable sequence of a pop block pops once, where its thread is at the post-commit
/// address after it: the value is the head of the list, and where there was a node the list has lost it. Else
/// it changes nothing but registers that the block may change.
pub fn pops_once_or_not_at_all()
    ensures whole { (s : Setting) (log : List Entry) (p : Slots) (at : ℕ) (area : Area) (h : ℕ) (q : Sequence)
        → IsBlockRun s log → HoldsBlock s (history s log) (pop_form p) at area q.thread
        → sequence_on s h (history s log) ≡ Some q → IsIn s (pop_range at) q.thread q.begun
        → (file s q.thread q.reached).pc ≡ at + 48
        → IsWholePop s p (cells_of s p q.thread q.begun) h q.thread q.begun q.reached }
    ensures not_whole { (s : Setting) (log : List Entry) (p : Slots) (at : ℕ) (area : Area) (h : ℕ) (q : Sequence)
        → IsBlockRun s log → HoldsBlock s (history s log) (pop_form p) at area q.thread
        → sequence_on s h (history s log) ≡ Some q → IsIn s (pop_range at) q.thread q.begun
        → (file s q.thread q.reached).pc ≢ at + 48
        → IsNoPop s p (cells_of s p q.thread q.begun) h q.thread q.begun q.reached }
{}

/// What the laws of runs ask of push and pop can be met: there is a block run in which a thread uses both
/// with one area. It is preempted in a push, begins anew, and pushes a node; it pops that node; and it finds
/// the list empty.
pub fn list_blocks_are_used()
    // the cell of the processor is the node
    ensures push { (s : Setting) × (log : List Entry) × (p : Slots) × (at : ℕ) × (area : Area) × (others : List Placed)
        × (q : Sequence) × IsWellUsed s log (push_form p) at area others q
        × (cell_seen s 0 (cells_of s p q.thread q.begun) q.reached ≡ Some 0x20100) }
    // the value is the node
    ensures pop { (s : Setting) × (log : List Entry) × (p : Slots) × (at : ℕ) × (area : Area) × (others : List Placed)
        × (q : Sequence) × IsWellUsed s log (pop_form p) at area others q
        × (register (file s q.thread q.reached).file p.value ≡ 0x20100) }
    // the value is 0
    ensures empty { (s : Setting) × (log : List Entry) × (p : Slots) × (at : ℕ) × (area : Area) × (others : List Placed)
        × (q : Sequence) × IsWellUsed s log (pop_form p) at area others q
        × (register (file s q.thread q.reached).file p.value ≡ 0) }
{}

/// In a block run a restartable sequence of an alloc block takes the last item out of the pool of its
/// processor once, where its thread is at the post-commit address after it: the value is that item, or 0
/// where there was none. Else it changes nothing but registers that the block may change.
pub fn allocs_once_or_not_at_all()
    ensures whole { (s : Setting) (log : List Entry) (p : Slots) (at : ℕ) (area : Area) (h : ℕ) (q : Sequence)
        → IsBlockRun s log → HoldsBlock s (history s log) (alloc_form p) at area q.thread
        → sequence_on s h (history s log) ≡ Some q → IsIn s (alloc_range at) q.thread q.begun
        → (file s q.thread q.reached).pc ≡ at + 64
        → IsWholeAlloc s p (cells_of s p q.thread q.begun) h q.thread q.begun q.reached }
    ensures not_whole { (s : Setting) (log : List Entry) (p : Slots) (at : ℕ) (area : Area) (h : ℕ) (q : Sequence)
        → IsBlockRun s log → HoldsBlock s (history s log) (alloc_form p) at area q.thread
        → sequence_on s h (history s log) ≡ Some q → IsIn s (alloc_range at) q.thread q.begun
        → (file s q.thread q.reached).pc ≢ at + 64
        → IsNoAlloc s p (cells_of s p q.thread q.begun) h q.thread q.begun q.reached }
{}

/// In a block run a restartable sequence of a free block puts its value behind the items of the pool of its
/// processor once, where its thread is at the post-commit address after it, and the value is then 0; where
/// the pool was full, pool and value are as they were. Else it changes nothing but registers that the block
/// may change, and at most the slot behind the items.
pub fn frees_once_or_not_at_all()
    ensures whole { (s : Setting) (log : List Entry) (p : Slots) (at : ℕ) (area : Area) (h : ℕ) (q : Sequence)
        → IsBlockRun s log → HoldsBlock s (history s log) (free_form p) at area q.thread
        → sequence_on s h (history s log) ≡ Some q → IsIn s (free_range at) q.thread q.begun
        → (file s q.thread q.reached).pc ≡ at + 72
        → IsWholeFree s p (cells_of s p q.thread q.begun) h q.thread q.begun q.reached }
    ensures not_whole { (s : Setting) (log : List Entry) (p : Slots) (at : ℕ) (area : Area) (h : ℕ) (q : Sequence)
        → IsBlockRun s log → HoldsBlock s (history s log) (free_form p) at area q.thread
        → sequence_on s h (history s log) ≡ Some q → IsIn s (free_range at) q.thread q.begun
        → (file s q.thread q.reached).pc ≢ at + 72
        → IsNoFree s p (cells_of s p q.thread q.begun) h q.thread q.begun q.reached }
{}

/// What the laws of runs ask of alloc and free can be met: there is a block run in which a thread uses both
/// with one area. It is preempted in a free once its value is 0, begins anew, and puts 42 into the pool; it
/// takes it out; and it finds the pool empty. And there is one in which it finds the pool full.
pub fn pool_blocks_are_used()
    // the first slot is 42
    ensures free { (s : Setting) × (log : List Entry) × (p : Slots) × (at : ℕ) × (area : Area) × (others : List Placed)
        × (q : Sequence) × IsWellUsed s log (free_form p) at area others q
        × (word_seen s 0 (slot_at (pool_at (cells_of s p q.thread q.begun) 0) 0) q.reached ≡ Some 42) }
    // the value is 42
    ensures alloc { (s : Setting) × (log : List Entry) × (p : Slots) × (at : ℕ) × (area : Area) × (others : List Placed)
        × (q : Sequence) × IsWellUsed s log (alloc_form p) at area others q
        × (register (file s q.thread q.reached).file p.value ≡ 42) }
    // the value is 0
    ensures none { (s : Setting) × (log : List Entry) × (p : Slots) × (at : ℕ) × (area : Area) × (others : List Placed)
        × (q : Sequence) × IsWellUsed s log (alloc_form p) at area others q
        × (register (file s q.thread q.reached).file p.value ≡ 0) }
    // the value and the count stay
    ensures full { (s : Setting) × (log : List Entry) × (p : Slots) × (at : ℕ) × (area : Area) × (others : List Placed)
        × (q : Sequence) × IsWellUsed s log (free_form p) at area others q
        × (register (file s q.thread q.reached).file p.value ≡ 42)
        × (count_seen s 0 (cells_of s p q.thread q.begun) q.reached ≡ Some 512) }
    // and what `retries_work_on_the_value` asks of a free: it comes back to the retry label
    ensures retried { (s : Setting) × (first log later : List Entry) × (p : Slots) × (at : ℕ) × (area : Area) × (t : ℕ)
        × IsBlockRun s (log ++ later) × HoldsBlock s (history s (log ++ later)) (free_form p) at area t
        × Retries s (placed_of (free_form p) at area) t first log
        × (register (file s t (history s first)).file p.value < 2 ^ 64) × ((file s t (history s log)).pc ≡ at) }
{}
