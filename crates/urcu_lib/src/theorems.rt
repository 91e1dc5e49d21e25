//! Laws of the blocks in runs, each as the contract of a function that does nothing.

ghost use Rattle.std.specs.Prelude.{ℕ, List, [], ◌∷◌, ◌++◌, Some, length, ◌≡◌, ◌≤◌, ◌+◌, ◌*◌};
ghost use Rattle.mach_types.specs.declared.events.Entry.{Entry};
ghost use Rattle.mach_types.specs.declared.events.Kind.TheVariants as kind;
ghost use Rattle.block_model.specs.Deciding.{event, history};
ghost use Rattle.block_model.specs.History.{Event, History, file};
ghost use Rattle.block_model.specs.Run.{IsBlockRun};
ghost use Rattle.block_model.specs.Setting.{Setting};
ghost use Rattle.elf_load.specs.Images.{IsImage};
ghost use Rattle.elf_load.specs.declared.image.Image.{Image};
ghost use Rattle.rv_asm.specs.Assembly.{AreAssembled, Assembly};
ghost use Rattle.alone_laws.specs.Spans.{code_of};
ghost use Rattle.percpu_lib.specs.Files.{HoldsCode};
ghost use Rattle.percpu_lib.specs.Lines.{AreEmitted, IsContinued};
ghost use Rattle.percpu_lib.specs.Words.{AreHeld};
ghost use Rattle.urcu_lib.specs.Blocks.{Urcu, lock_block, sync_block, unlock_block};
ghost use Rattle.urcu_lib.specs.Lines.{AreFree, lock_lines, sync_lines, unlock_lines};
ghost use Rattle.urcu_lib.specs.declared.regs.ReadRegs.{ReadRegs};
ghost use Rattle.urcu_lib.specs.declared.regs.SyncRegs.{SyncRegs};
ghost use Rattle.urcu_lib.specs.Sections.{HaveEnded, IsExecAt, IsGraceBegin, IsGraceEnd, IsLockStore};
ghost use Rattle.urcu_lib.specs.Stretch.{HasFinished, HasNewCounter, IsCounterGrown, IsPassing, Runs};
ghost use Rattle.urcu_lib.specs.Uses.{HoldsUrcu};

/// In a block run each section of a slot for which a sync block waits, and which began before a grace period
/// of that block began, has ended before that grace period ended: where a thread executes the block's last
/// instruction, no section of such a slot goes on that began before the thread executed the block's call.
pub fn sections_end_before_grace_periods()
    ensures { (s : Setting) (log : List Entry) (u : Urcu) (at t : ℕ) (r : SyncRegs) (e : Event)
        (before : History)
        → IsBlockRun s log → history s log ≡ e ∷ before → HoldsUrcu s u (e ∷ before) → u.syncs at ≡ Some r
        → IsGraceEnd at t e → HaveEnded s u at t before }
{}

/// Where a thread executes the instructions of a sync block from its first on, no signal is delivered to it,
/// and the first load of each slot gives 0 or a number not below the new counter, the block's last
/// instruction is soon executed: it is among the thread's first 11 + 6 * readers instructions, where the log
/// has so many.
pub fn sync_is_soon_over()
    ensures soon { (s : Setting) (log : List Entry) (u : Urcu) (at t n : ℕ) (r : SyncRegs) (begun : History)
        → IsBlockRun s log → HoldsUrcu s u (history s log) → u.syncs at ≡ Some r → (file s t begun).pc ≡ at
        → Runs s at t begun (history s log) n → 11 + 6 * u.readers at ≤ n
        → HasFinished s at t (11 + 6 * u.readers at) begun (history s log) }
    // The new counter is what x5 holds where the thread executes the instruction behind the load.
    ensures compared { (s : Setting) (log : List Entry) (u : Urcu) (at t : ℕ) (r : SyncRegs) (e : Event)
        (before : History)
        → IsBlockRun s log → history s log ≡ e ∷ before → HoldsUrcu s u (e ∷ before) → u.syncs at ≡ Some r
        → IsExecAt (at + 44) e → e.entry.tid.0 ≡ t → HasNewCounter s u at t before }
    // And after the last instruction the thread's hart sees the counter 1 above what it saw where the call had
    // returned.
    ensures grown { (s : Setting) (log : List Entry) (u : Urcu) (at t : ℕ) (r : SyncRegs) (e : Event)
        (before : History)
        → IsBlockRun s log → history s log ≡ e ∷ before → HoldsUrcu s u (e ∷ before) → u.syncs at ≡ Some r
        → IsGraceEnd at t e → IsCounterGrown s u at t e before }
{}

/// What `HoldsUrcu` asks can be met: there is a block run in which a program uses the blocks so, the store of
/// a lock block comes before the call of a sync block, and the sync block's last instruction is executed.
pub fn sync_blocks_are_used()
    ensures { (s : Setting) × (first second third : List Entry) × (lock call last : Entry) × (u : Urcu)
        × (at t : ℕ) × (r : SyncRegs)
        × IsBlockRun s (first ++ lock ∷ (second ++ call ∷ (third ++ last ∷ [])))
        × HoldsUrcu s u (history s (first ++ lock ∷ (second ++ call ∷ (third ++ last ∷ []))))
        × (u.syncs at ≡ Some r)
        × IsLockStore s u 0 (event s (history s first) lock) (history s first)
        × IsGraceBegin at t (event s (history s (first ++ lock ∷ second)) call)
        × IsGraceEnd at t (event s (history s (first ++ lock ∷ (second ++ call ∷ third))) last) }
{}

/// It can be met too where a handler interrupts a sync block: there is a block run in which a thread calls membarrier
/// in a sync block of two slots while a section of slot 0 goes on, loads a slot and has to load it again, and is
/// interrupted there by a signal. The handler returns, the thread goes on as it was and comes to the block's last
/// instruction. Later it comes to the block again, runs there as `sync_is_soon_over` asks, for as long as that says,
/// and comes to its last instruction.
pub fn handlers_return_to_sync_blocks()
    ensures { (s : Setting) × (first second third fourth fifth sixth seventh : List Entry)
        × (eighth ninth : List Entry) × (lock call signal back last again over : Entry) × (u : Urcu) × (at t : ℕ)
        × (r : SyncRegs)
        × (let begun : List Entry = first ++ lock ∷ second in
        let in_loop : List Entry = begun ++ call ∷ third in
        let come_back : List Entry = in_loop ++ signal ∷ (fourth ++ back ∷ []) in
        let waited : List Entry = come_back ++ fifth in
        let at_start : List Entry = waited ++ last ∷ sixth in
        let called_again : List Entry = at_start ++ seventh in
        let to_over : List Entry = called_again ++ again ∷ eighth in
        let log : List Entry = to_over ++ over ∷ ninth in
        IsBlockRun s log × HoldsUrcu s u (history s log) × (u.syncs at ≡ Some r) × (u.readers at ≡ 2)
        × IsLockStore s u 0 (event s (history s first) lock) (history s first)
        × IsGraceBegin at t (event s (history s begun) call)
        × ((file s t (history s in_loop)).pc ≡ at + 40) × (IsPassing (file s t (history s in_loop)).file → ⊥)
        × (signal.kind ≡ kind.Signal) × (signal.tid.0 ≡ t)
        × (file s t (history s come_back) ≡ file s t (history s in_loop))
        × IsGraceEnd at t (event s (history s waited) last) × ((file s t (history s at_start)).pc ≡ at)
        × Runs s at t (history s at_start) (history s log) (11 + 6 * u.readers at)
        × IsGraceBegin at t (event s (history s called_again) again)
        × IsGraceEnd at t (event s (history s to_over) over)) }
{}

/// The program of a file holds the instructions of a block where finished code stands to which the block's
/// lines were appended, whatever was appended behind them; those of a sync block where its labels were free.
pub fn files_hold_rcu_blocks()
    ensures lock { (r : ReadRegs) (at : ℕ) (a b c : Assembly) (bytes file : List ℕ) (image : Image)
        → AreEmitted (lock_lines r) a b → IsContinued b c → AreAssembled c.labels c.items bytes
        → IsImage file image → HoldsCode file at bytes
        → AreHeld (code_of image.pages.items) (at + 4 * length a.items) (lock_block r) }
    ensures unlock { (r : ReadRegs) (at : ℕ) (a b c : Assembly) (bytes file : List ℕ) (image : Image)
        → AreEmitted (unlock_lines r) a b → IsContinued b c → AreAssembled c.labels c.items bytes
        → IsImage file image → HoldsCode file at bytes
        → AreHeld (code_of image.pages.items) (at + 4 * length a.items) (unlock_block r) }
    ensures sync { (r : SyncRegs) (base readers at : ℕ) (a b c : Assembly) (bytes file : List ℕ)
        (image : Image)
        → AreFree a.labels base → AreEmitted (sync_lines r base readers) a b → IsContinued b c
        → AreAssembled c.labels c.items bytes → IsImage file image → HoldsCode file at bytes
        → AreHeld (code_of image.pages.items) (at + 4 * length a.items) (sync_block r readers) }
{}
