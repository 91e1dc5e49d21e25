//! Laws of made guests, each as the contract of a function that does nothing.

ghost use Rattle.std.specs.Prelude.{ℕ, List, [], ◌∷◌, ◌++◌, ◌≡◌, ◌+◌, Some};
ghost use Rattle.mach_types.specs.declared.events.Entry.{Entry};
ghost use Rattle.mach_types.specs.declared.limits.Limits.{Limits};
ghost use Rattle.mach_types.specs.declared.sequences.Area.{Area};
ghost use Rattle.elf_load.specs.Images.{IsImage};
ghost use Rattle.elf_load.specs.declared.image.Image.{Image};
ghost use Rattle.elf_load.specs.declared.image.ImagePage.{ImagePage};
ghost use Rattle.rv_asm.specs.Assembly.{AreAssembled, Assembly, empty};
ghost use Rattle.block_model.specs.Acts.{Sequence, sequence_on};
ghost use Rattle.block_model.specs.Deciding.{event, history};
ghost use Rattle.block_model.specs.History.{file};
ghost use Rattle.block_model.specs.Run.{IsBlockRun};
ghost use Rattle.block_model.specs.Setting.{Setting, setting_of};
ghost use Rattle.alone_laws.specs.Entering.{IsIn};
ghost use Rattle.alone_laws.specs.Uses.{CanAlwaysBegin, Placed};
ghost use Rattle.percpu_lib.specs.Adds.{add_range, cell_seen, placed_add};
ghost use Rattle.percpu_lib.specs.Kinds.{Kind, form_of, lines_of};
ghost use Rattle.percpu_lib.specs.Lines.{AreEmitted};
ghost use Rattle.percpu_lib.specs.Pops.{pop_form};
ghost use Rattle.percpu_lib.specs.Pushes.{node_of, push_form};
ghost use Rattle.percpu_lib.specs.RingKinds.{RingKind, ring_form_of, ring_lines_of};
ghost use Rattle.percpu_lib.specs.Used.{IsWellUsed};
ghost use Rattle.percpu_lib.specs.Uses.{HoldsAdd, SharesArea, cells_of};
ghost use Rattle.percpu_lib.specs.declared.slots.Slots.{Slots};
ghost use Rattle.urcu_lib.specs.Blocks.{Urcu};
ghost use Rattle.urcu_lib.specs.Sections.{IsGraceBegin, IsGraceEnd, IsLockStore};
ghost use Rattle.urcu_lib.specs.Uses.{HoldsUrcu};
ghost use Rattle.urcu_lib.specs.declared.regs.SyncRegs.{SyncRegs};
ghost use Rattle.guest_names.specs.declared.names.Name.TheVariants.{Counter, List as Lists, Urcu as UrcuGuest};
ghost use Rattle.guest_names.specs.declared.names.Name.{Name};
ghost use Rattle.guest_programs.specs.Blocks.{ImageHoldsBlock};
ghost use Rattle.guest_programs.specs.Guests.{IsGuestFile};
ghost use Rattle.guest_programs.specs.LibraryBlocks.{AreOfLibrary, IsOfForm};
ghost use Rattle.guest_programs.specs.Programs.{IsGuestElf, data_bytes, guest_program};
ghost use Rattle.guest_programs.specs.Steps.{guest_lines};
ghost use Rattle.guest_programs.specs.declared.layout.TheConstants.{CODE};
ghost use Rattle.guest_programs.specs.declared.labels.TheConstants.{LABELS};
ghost use Rattle.percpu_lib.specs.Files.{HoldsCode};

/// The code of a guest's file stands in the memory with which its program starts, from the first word on, and may be
/// executed.
pub fn made_files_hold_their_code()
    ensures { (name : Name) (n : ℕ) (file : List ℕ) → (elf : IsGuestElf name n file) → HoldsCode file 0x10000 elf.code }
{}

/// A guest's file starts the program of its code and its data: each image of it has these pages, this entry and this break.
/// Where the program headers stand in memory is the image's.
pub fn made_files_start_their_programs()
    ensures { (name : Name) (n : ℕ) (file : List ℕ) → (elf : IsGuestElf name n file) → (image : Image) (limits : Limits)
        → IsImage file image
        → (setting_of image limits).program
        ≡ record (guest_program elf.code (data_bytes elf.asm n)) { phdr = image.phdr } }
{}

/// The blocks that an image holds are those of which the laws of `percpu_lib` and `urcu_lib` speak.
pub fn made_files_hold_their_blocks()
    // each block of `percpu_lib`
    ensures block { (kind : Kind) (pages : List ImagePage) (b : ImageHoldsBlock (lines_of kind) pages)
        → IsOfForm (form_of kind) (lines_of kind) pages b }
    // each ring block of four words
    ensures ring { (kind : RingKind) (pages : List ImagePage) (b : ImageHoldsBlock (ring_lines_of kind 4) pages)
        → IsOfForm (ring_form_of kind 4) (ring_lines_of kind 4) pages b }
    // so each block that is found in the image of a made file
    ensures file { (name : Name) (n : ℕ) (file : List ℕ) → (made : IsGuestFile name n file) → (image : Image)
        → (is : IsImage file image) → AreOfLibrary name image.pages.items (made.holds image is) }
{}

/// What `HoldsAdd` asks is met by a made guest: there are a block run of the counter guest for the size 1 and a thread of it
/// that uses its add block so, is preempted inside, begins anew, and comes to the post-commit address by a sequence of
/// the block. The cell of its processor is 1 then.
pub fn counters_use_their_block()
    ensures { (asm : Assembly) × (code : List ℕ) × (s : Setting) × (log : List Entry) × (p : Slots) × (at : ℕ)
        × (area : Area) × (h : ℕ) × (q : Sequence)
        × AreEmitted (guest_lines Counter) (empty CODE LABELS) asm × AreAssembled asm.labels asm.items code
        × (s.program ≡ guest_program code (data_bytes asm 1))
        × IsBlockRun s log × HoldsAdd s (history s log) p at area q.thread
        × CanAlwaysBegin s (placed_add p at area) q.thread (history s log)
        × SharesArea s (history s log) p at area q.thread []
        × (sequence_on s h (history s log) ≡ Some q) × IsIn s (add_range at) q.thread q.begun
        × ((file s q.thread q.reached).pc ≡ at + 44)
        × (cell_seen s h (cells_of s p q.thread q.begun) q.reached ≡ Some 1) }
{}

/// What the laws of push and pop ask is met by a made guest, the list guest for the size 1: there is a block run of it
/// in which its second thread uses the push block so, beside the pop block; and one in which its first thread, once
/// both have pushed a node, uses the pop block so, beside the push block.
pub fn lists_use_their_block()
    // the cell of its processor is its node
    ensures push { (asm : Assembly) × (code : List ℕ) × (s : Setting) × (log : List Entry) × (p : Slots) × (at : ℕ)
        × (area : Area) × (others : List Placed) × (q : Sequence)
        × AreEmitted (guest_lines Lists) (empty CODE LABELS) asm × AreAssembled asm.labels asm.items code
        × (s.program ≡ guest_program code (data_bytes asm 1)) × IsWellUsed s log (push_form p) at area others q
        × (cell_seen s 0 (cells_of s p q.thread q.begun) q.reached ≡ Some (node_of s p q.thread q.begun)) }
    // the cell was the first thread's node, which is the value, and is the second's
    ensures pop { (asm : Assembly) × (code : List ℕ) × (s : Setting) × (log : List Entry) × (p : Slots) × (at : ℕ)
        × (area : Area) × (others : List Placed) × (q : Sequence)
        × AreEmitted (guest_lines Lists) (empty CODE LABELS) asm × AreAssembled asm.labels asm.items code
        × (s.program ≡ guest_program code (data_bytes asm 1)) × IsWellUsed s log (pop_form p) at area others q
        × (cell_seen s 0 (cells_of s p q.thread q.begun) q.begun ≡ Some 0x40000)
        × (node_of s p q.thread q.reached ≡ 0x40000)
        × (cell_seen s 0 (cells_of s p q.thread q.begun) q.reached ≡ Some 0x44000) }
{}

/// What `HoldsUrcu` asks is met by a made guest: there is a block run of the guest urcu for the size 1 that uses its
/// blocks so, in which a reader has locked before the first thread calls membarrier in the sync block, and the
/// sync block's last instruction is executed.
pub fn readers_are_waited_for()
    ensures { (asm : Assembly) × (code : List ℕ) × (s : Setting) × (first second third : List Entry)
        × (lock call last : Entry) × (u : Urcu) × (at t : ℕ) × (r : SyncRegs)
        × AreEmitted (guest_lines UrcuGuest) (empty CODE LABELS) asm × AreAssembled asm.labels asm.items code
        × (s.program ≡ guest_program code (data_bytes asm 1))
        × IsBlockRun s (first ++ lock ∷ (second ++ call ∷ (third ++ last ∷ [])))
        × HoldsUrcu s u (history s (first ++ lock ∷ (second ++ call ∷ (third ++ last ∷ []))))
        × (u.syncs at ≡ Some r) × IsLockStore s u 0 (event s (history s first) lock) (history s first)
        × IsGraceBegin at t (event s (history s (first ++ lock ∷ second)) call)
        × IsGraceEnd at t (event s (history s (first ++ lock ∷ (second ++ call ∷ third))) last) }
{}
