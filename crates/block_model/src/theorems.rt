//! Laws of runs, each as the contract of a function that does nothing.

ghost use Rattle.std.specs.Prelude.{ℕ, List, [], ◌∷◌, ◌++◌, ◌≡◌, ◌≢◌, ◌↔◌, ◌<◌, ◌≤◌, ◌+◌, ◌-◌, ◌^◌, All, IsOk, IsSome, IsTrue, true, false, Ok, Err, None, Some, Option, length, map, if◌then◌else◌};
ghost use Rattle.std.specs.List.Sorted.{IsStrictlyIncreasing};
ghost use Rattle.mach_types.specs.Bytes.{each_byte};
ghost use Rattle.mach_types.specs.Events.{choice_of};
ghost use Rattle.mach_types.specs.Kernel.Areas.{area_of};
ghost use Rattle.mach_types.specs.Kernel.Pages.{can_execute, permission_of};
ghost use Rattle.mach_types.specs.Kernel.Scheduling.{affinity_of, has_hart};
ghost use Rattle.mach_types.specs.Kernel.Signals.{action_of, has_signal, is_ignored, next_for, pending_of};
ghost use Rattle.mach_types.specs.Kernel.Threads.{is_live, is_ready, numbers, times, waits};
ghost use Rattle.mach_types.specs.declared.events.Choice.{Choice};
ghost use Rattle.mach_types.specs.declared.events.Choice.TheVariants as asked;
ghost use Rattle.mach_types.specs.declared.events.Entry.{Entry};
ghost use Rattle.mach_types.specs.declared.events.Kind.TheVariants as kind;
ghost use Rattle.mach_types.specs.declared.events.Tid.{Tid};
ghost use Rattle.mach_types.specs.declared.kernel_words.TheConstants.{CONSOLE_ROOM, MOST_THREADS};
ghost use Rattle.mach_types.specs.declared.limits.End.TheVariants.{Unended};
ghost use Rattle.mach_types.specs.declared.limits.Limits.{Limits};
ghost use Rattle.mach_types.specs.declared.signals.TheConstants.{LAST_SIGNAL};
ghost use Rattle.mach_types.specs.declared.user_memory.Store.{Store};
ghost use Rattle.mach_types.specs.declared.user_memory.TheConstants.{STORE_BUFFER_CAPACITY};
ghost use Rattle.elf_load.specs.declared.image.Image.{Image};
ghost use Rattle.elf_load.specs.declared.image.ImagePage.{ImagePage};
ghost use Rattle.elf_load.specs.Images.{IsBootable, IsImage};
ghost use Rattle.elf_load.specs.Start.{program_of};
ghost use Rattle.block_model.specs.Acts.{Sequence, sequence_on};
ghost use Rattle.block_model.specs.Barriers.{Begun, IsWaiting, begun_on};
ghost use Rattle.block_model.specs.Choosing.{IsChosen, choice_at, has_ended, luck, next_entry};
ghost use Rattle.block_model.specs.Deciding.{decide, done, end_of, entry_in, history};
ghost use Rattle.block_model.specs.ErrorCalls.{GivesError, GivesErrorAlone};
ghost use Rattle.block_model.specs.History.{Event, History, awaits, can_be_written, console, drains, ended, events, file, here_in_history, kernel, restart, running, stores, waiting};
ghost use Rattle.block_model.specs.Ids.{AreIdsApart, IsLeastFree, id_of, next_id};
ghost use Rattle.block_model.specs.Kernel.{first_kernel};
ghost use Rattle.block_model.specs.Layouts.{IsLaidOut, mapped_pages};
ghost use Rattle.block_model.specs.Plain.{here_in_plain, log_made, plain_after, plain_decide, plain_end, plain_run, plain_solo};
ghost use Rattle.block_model.specs.PlainOf.{plain_of};
ghost use Rattle.block_model.specs.PlainSays.{MakesLog, SaysOf};
ghost use Rattle.block_model.specs.Replay.{Ask, AllAnswer, IsFirstBad, IsFirstRefused, played, play_line, played_read, play_read_line, script_of};
ghost use Rattle.block_model.specs.Run.{IsAllowedLog, IsBlockRun};
ghost use Rattle.block_model.specs.Setting.{Setting, setting_of};
ghost use Rattle.block_model.specs.Sights.{is_deliverable_on};
ghost use Rattle.block_model.specs.Solo.{IsSolo, solo_choice};
ghost use Rattle.block_model.specs.Swaps.{IsEquivalentRun, MaySwap};
ghost use Rattle.block_model.specs.Tables.{AreSignalsOfLive};
ghost use Rattle.block_model.specs.Whole.{RunsThroughout};
ghost use Rattle.block_model.specs.Walks.{IsWalk, answers, computed};

/// The log of a block run, read as a script, is allowed at every line and makes the same log.
pub fn run_replays()
    ensures { (s : Setting) (log : List Entry) → IsBlockRun s log → played s (script_of log) ≡ Ok log }
{}

/// What a script makes is exactly the block run that has one entry for each line, in order, which answers it.
pub fn script_makes_its_run()
    ensures { (s : Setting) (lines : List Ask) (log : List Entry)
        → (played s lines ≡ Ok log) ↔ (IsBlockRun s log × AllAnswer lines log) }
{}

/// A script is refused with a number exactly where the line of that number is the first that is refused.
pub fn first_refused_line()
    ensures { (s : Setting) (lines : List Ask) (n : ℕ)
        → (played s lines ≡ Err n) ↔ (IsFirstRefused s lines n) }
{}

/// A script of which some lines can't be read is refused with a number exactly where the line of that number is the
/// first that can't be read or is refused.
pub fn first_bad_line()
    ensures { (s : Setting) (lines : List (Option Ask)) (n : ℕ)
        → (played_read s lines ≡ Err n) ↔ (IsFirstBad s lines n) }
{}

/// A script is played a line at a time.
pub fn script_goes_on()
    ensures start { (s : Setting) → played s [] ≡ Ok [] }
    ensures more { (s : Setting) (lines : List Ask) (line : Ask)
        → played s (lines ++ line ∷ []) ≡ play_line s (played s lines) line }
    // What follows a line that is refused doesn't matter.
    ensures refused { (s : Setting) (n : ℕ) (lines more : List Ask) → played s lines ≡ Err n
        → played s (lines ++ more) ≡ Err n }
{}

/// A script of which some lines can't be read is played a line at a time too, and makes the same where each can be read.
pub fn read_script_goes_on()
    ensures start { (s : Setting) → played_read s [] ≡ Ok [] }
    ensures more { (s : Setting) (lines : List (Option Ask)) (line : Option Ask)
        → played_read s (lines ++ line ∷ []) ≡ play_read_line s (played_read s lines) line }
    ensures refused { (s : Setting) (n : ℕ) (lines more : List (Option Ask)) → played_read s lines ≡ Err n
        → played_read s (lines ++ more) ≡ Err n }
    ensures all { (s : Setting) (lines : List Ask) → played_read s (map Some lines) ≡ played s lines }
{}

/// The plain machine after the log of a block run is in the state that is read by looking back through the log.
pub fn one_machine()
    ensures state { (s : Setting) (log : List Entry) → IsBlockRun s log
        → plain_after s log ≡ plain_of s (history s log) }
    // What a rule may read of it where a hart is asked, its answer to each hart and choice, and its end are so too.
    ensures here { (s : Setting) (log : List Entry) (h : ℕ) → IsBlockRun s log
        → here_in_plain s (plain_after s log) h ≡ here_in_history s (history s log) h }
    ensures answer { (s : Setting) (log : List Entry) (h : ℕ) (choice : Choice) → IsBlockRun s log
        → decide s (history s log) h choice ≡ plain_decide s (plain_after s log) h choice }
    ensures end { (s : Setting) (log : List Entry) → IsBlockRun s log
        → end_of s (history s log) ≡ plain_end s (plain_after s log) }
{}

/// The plain machine, run over the lines of a script, makes the log that the script makes or refuses the same line.
pub fn plain_machine_plays()
    ensures log { (s : Setting) (lines : List Ask) → log_made (plain_run s lines) ≡ played s lines }
    // Its console, its end, and its answer to every hart and choice are then those that are read from the log.
    ensures says { (s : Setting) (lines : List Ask) (log : List Entry) → played s lines ≡ Ok log
        → MakesLog s lines log }
{}

/// The plain machine, run over the harts and choices of a block run in order, makes exactly its entries.
pub fn plain_machine_makes_run()
    ensures { (s : Setting) (log : List Entry) → IsBlockRun s log → MakesLog s (script_of log) log }
{}

/// The plain machine's own run by the fixed rule of `solo` makes the log of each finished block run by that rule.
pub fn plain_machine_makes_solo_run()
    ensures log { (s : Setting) (log : List Entry) → IsBlockRun s log → IsSolo s log
        → end_of s (history s log) ≢ Unended
        → (plain_solo s s.limits.steps).log ≡ log }
    ensures says { (s : Setting) (log : List Entry) → IsBlockRun s log → IsSolo s log
        → end_of s (history s log) ≢ Unended
        → SaysOf s log (plain_solo s s.limits.steps).machine }
{}

/// In a block run each entry is of a hart of the machine, and its thread's number and its pc fit 32 and 64 bits. That a
/// number fits 32 bits takes a step limit that a machine's has: an event gives at most one number. That a pc fits 64 bits takes
/// a program whose entry fits them and whose pages have bytes: a signal's handler is read from memory.
pub fn run_is_printable()
    ensures harts { (s : Setting) (log : List Entry) → IsBlockRun s log
        → All (λ (e : Entry). e.hart.0 < s.limits.harts) log }
    ensures threads { (s : Setting) (log : List Entry) → s.limits.steps < 2 ^ 31 - 1 → IsBlockRun s log
        → All (λ (e : Entry). e.tid.0 < 2 ^ 32) log }
    ensures addresses { (s : Setting) (log : List Entry) → s.program.entry < 2 ^ 64
        → All (λ (p : ImagePage). All (λ b. b < 256) p.bytes) s.program.pages
        → IsBlockRun s log → All (λ (e : Entry). e.pc < 2 ^ 64) log }
{}

/// A block run has no more entries than the step limit says.
pub fn run_length()
    ensures { (s : Setting) (log : List Entry) → IsBlockRun s log → length log ≤ s.limits.steps }
{}

/// Whatever ended the process in a block run, it is not the end of a script.
pub fn run_is_not_left_open_by_an_instruction()
    ensures { (s : Setting) (log : List Entry) → IsBlockRun s log → ended (history s log) ≢ Some Unended }
{}

/// At each place of a block run, on each hart: what waits may enter memory, no thread runs on two harts, and one that waits in a barrier
/// runs on its own.
pub fn harts_are_sound()
    // No store waits on a hart that runs no thread.
    ensures idle { (s : Setting) (log : List Entry) (h : ℕ) → IsBlockRun s log
        → running s h (history s log) ≡ None → waiting h (history s log) ≡ [] }
    ensures few { (s : Setting) (log : List Entry) (h : ℕ) → IsBlockRun s log
        → length (waiting h (history s log)) ≤ STORE_BUFFER_CAPACITY }
    ensures alone { (s : Setting) (log : List Entry) (h k t : ℕ) → IsBlockRun s log
        → running s h (history s log) ≡ Some t → running s k (history s log) ≡ Some t → h ≡ k }
    // Each byte of each waiting store can be written.
    ensures writable { (s : Setting) (log : List Entry) (h : ℕ) → IsBlockRun s log
        → All (λ (w : Store). each_byte (can_be_written s (history s log)) w.at w.size ≡ true)
        (waiting h (history s log)) }
    // A thread that waits in a barrier stays on its hart, where no store waits.
    ensures in_barrier { (s : Setting) (log : List Entry) (h left : ℕ) → IsBlockRun s log
        → awaits h (history s log) ≡ Some left
        → (running s h (history s log) ≢ None) × (waiting h (history s log) ≡ []) }
{}

/// At each place of a block run the kernel's record is sound.
pub fn record_is_sound()
    // The ready list has each ready thread once, and no other number.
    ensures ready { (s : Setting) (log : List Entry) (t : ℕ) → IsBlockRun s log
        → times t (kernel s (history s log)).scheduling.order
        ≡ (if is_ready t (kernel s (history s log)).threads then 1 else 0) }
    // The numbers of live threads rise, so that no two threads have the same; they are positive, and were given.
    ensures rising { (s : Setting) (log : List Entry) → IsBlockRun s log
        → IsStrictlyIncreasing (numbers (kernel s (history s log)).threads.live) }
    ensures given { (s : Setting) (log : List Entry) → IsBlockRun s log
        → All (λ t. (0 < t) × (t ≤ (kernel s (history s log)).threads.given))
        (numbers (kernel s (history s log)).threads.live) }
    // An event gives at most one number.
    ensures fit { (s : Setting) (log : List Entry) → IsBlockRun s log
        → (kernel s (history s log)).threads.given ≤ length log + 1 }
    ensures few { (s : Setting) (log : List Entry) → IsBlockRun s log
        → length (kernel s (history s log)).threads.live ≤ MOST_THREADS }
    // Each live thread may run on some hart of the machine.
    ensures affinity { (s : Setting) (log : List Entry) (t : ℕ) → IsBlockRun s log → 0 < s.limits.harts
        → is_live t (kernel s (history s log)).threads ≡ true
        → (h : ℕ) × (h < s.limits.harts)
        × (has_hart (affinity_of t (kernel s (history s log)).scheduling) h ≡ true) }
    ensures console { (s : Setting) (log : List Entry) → IsBlockRun s log
        → length (console s (history s log)) ≤ CONSOLE_ROOM }
    // Of a program that is laid out as a loaded one is, a page can be executed where it could at the start, and then its
    // permission is the same.
    ensures code { (s : Setting) (log : List Entry) (n : ℕ) → IsLaidOut s.program → IsBlockRun s log
        → can_execute (permission_of (kernel s (history s log)).pages.runs n)
        ≡ can_execute (permission_of (first_kernel s).pages.runs n) }
    ensures code_stays { (s : Setting) (log : List Entry) (n : ℕ) → IsLaidOut s.program → IsBlockRun s log
        → can_execute (permission_of (first_kernel s).pages.runs n) ≡ true
        → permission_of (kernel s (history s log)).pages.runs n
        ≡ permission_of (first_kernel s).pages.runs n }
    // The free frames and the mapped pages add up to as many as at the start.
    ensures frames { (s : Setting) (log : List Entry) → IsLaidOut s.program → IsBlockRun s log
        → (kernel s (history s log)).pages.free + mapped_pages (kernel s (history s log)).pages
        ≡ (first_kernel s).pages.free + mapped_pages (first_kernel s).pages }
{}

/// On a machine of at most 8 harts threads that run hold different concurrency ids at each place of a block run, each thread
/// that runs one, and the same as long as it runs (rseq(2), `mm_cid`).
pub fn running_threads_hold_different_ids()
    ensures apart { (s : Setting) (log : List Entry) → s.limits.harts ≤ 8 → IsBlockRun s log
        → AreIdsApart (kernel s (history s log)).threads (kernel s (history s log)).ids }
    // Where a thread may begin to run, the id that it gets is below the number of harts, and below that of live threads.
    ensures below_harts { (s : Setting) (log : List Entry) (h : ℕ) (t : Tid) (entry : Entry)
        → s.limits.harts ≤ 8 → IsBlockRun s log
        → decide s (history s log) h (asked.Run t) ≡ Ok entry
        → next_id (kernel s (history s log)).ids < s.limits.harts }
    ensures below_live { (s : Setting) (log : List Entry) (h : ℕ) (t : Tid) (entry : Entry)
        → s.limits.harts ≤ 8 → IsBlockRun s log
        → decide s (history s log) h (asked.Run t) ≡ Ok entry
        → next_id (kernel s (history s log)).ids < length (kernel s (history s log)).threads.live }
    // It is the least that no thread holds, and the thread then holds it.
    ensures least { (s : Setting) (log : List Entry) (h : ℕ) (t : Tid) (entry : Entry) → s.limits.harts ≤ 8
        → IsBlockRun s log
        → decide s (history s log) h (asked.Run t) ≡ Ok entry
        → IsLeastFree (kernel s (history s log)).ids (next_id (kernel s (history s log)).ids) }
    ensures its { (s : Setting) (log : List Entry) (entry : Entry) → s.limits.harts ≤ 8
        → IsBlockRun s (log ++ entry ∷ [])
        → choice_of entry ≡ asked.Run entry.tid
        → running s entry.hart.0 (history s (log ++ entry ∷ [])) ≡ Some entry.tid.0
        → id_of entry.tid.0 (kernel s (history s (log ++ entry ∷ []))).ids
        ≡ next_id (kernel s (history s log)).ids }
    // A thread that runs before an event and after it holds the same id.
    ensures stays { (s : Setting) (log : List Entry) (entry : Entry) (h k t : ℕ) → s.limits.harts ≤ 8
        → IsBlockRun s (log ++ entry ∷ [])
        → running s h (history s log) ≡ Some t → running s k (history s (log ++ entry ∷ [])) ≡ Some t
        → id_of t (kernel s (history s (log ++ entry ∷ []))).ids ≡ id_of t (kernel s (history s log)).ids }
{}

/// At each place of a block run each area is that of a live thread, and a thread has at most one.
pub fn areas_belong_to_live_threads()
    ensures live { (s : Setting) (log : List Entry) (t : ℕ) → IsBlockRun s log
        → IsSome (area_of t (kernel s (history s log)).areas)
        → is_live t (kernel s (history s log)).threads ≡ true }
    ensures one { (s : Setting) (log : List Entry) (t : ℕ) → IsBlockRun s log
        → times t (map (λ pair. pair.0) (kernel s (history s log)).areas) ≤ 1 }
{}

/// At each place of a block run masks and pending signals are kept of the live threads alone, in the same order.
pub fn signals_belong_to_live_threads()
    ensures { (s : Setting) (log : List Entry) → IsBlockRun s log
        → AreSignalsOfLive (kernel s (history s log)).threads (kernel s (history s log)).signals }
{}

/// At each place of a block run no signal is pending that its action ignores: such a signal is dropped when it is sent, and when the
/// action is set (signal(7), sigaction(2)).
pub fn no_ignored_signal_is_pending()
    ensures { (s : Setting) (log : List Entry) (t signal : ℕ) → IsBlockRun s log → 1 ≤ signal
        → signal ≤ LAST_SIGNAL
        → has_signal (pending_of t (kernel s (history s log)).signals) signal ≡ true
        → is_ignored signal (action_of signal (kernel s (history s log)).signals) ≡ false }
{}

/// At each place of a block run no thread waits in futex(2) while a signal can be delivered to it (signal(7), "Interruption of system
/// calls").
pub fn no_thread_waits_with_a_signal()
    ensures { (s : Setting) (log : List Entry) (t : ℕ) → IsBlockRun s log
        → waits (kernel s (history s log)).threads t
        → next_for t (kernel s (history s log)).signals ≡ None }
{}

/// At each place of a block run the thread of the restartable sequence that a hart's newest event is of runs on that hart, and
/// ran there before the sequence's first event.
pub fn sequences_stay_on_their_harts()
    ensures { (s : Setting) (log : List Entry) (h : ℕ) (q : Sequence) → IsBlockRun s log
        → sequence_on s h (history s log) ≡ Some q
        → RunsThroughout s (history s log) h q }
{}

/// A log whose entries are all allowed is a block run: it is whole. So each restartable sequence of it (rseq(2)) is one
/// uninterrupted act of its thread on its hart. It leaves its range by its own instruction; or it is interrupted, and goes on at
/// its abort handler, which is signed, with all other registers as they were and the pointer of its area cleared; or the
/// process ends with it, by the signal of its fault or by SIGSEGV; or it was dropped, since something touched its area, its
/// descriptor, its signature or a page of theirs; or it has no end yet where the log ends. One whose thread leaves the hart
/// inside it hangs, and is over when the thread begins to run again, which is then not inside. And each barrier that returned
/// (membarrier(2)) did so once each hart that it is about was passed by it, as the next law says in its clauses.
pub fn block_runs_are_whole()
    ensures { (s : Setting) (log : List Entry) → IsAllowedLog s log → IsBlockRun s log }
{}

/// Where `done` comes in a block run, the barrier returns that the hart's thread began last (membarrier(2)), once each hart that it is
/// about is passed by it.
pub fn barriers_return_when_they_are_passed()
    // There is that barrier, and it was begun by an entry of the hart: its call, which stands right after `b.call`.
    ensures begun { (s : Setting) (earlier later : List Entry) (entry : Entry)
        → IsBlockRun s (earlier ++ entry ∷ later) → entry.kind ≡ kind.Done
        → (b : Begun) × (begun_on entry.hart.0 (history s earlier) ≡ Some b)
        × (awaits entry.hart.0 (history s earlier) ≡ Some 0) }
    ensures call { (s : Setting) (log : List Entry) (h : ℕ) (b : Begun) → begun_on h (history s log) ≡ Some b
        → (since : History) × (call : Event) × (history s log ≡ since ++ call ∷ b.call)
        × (call.entry.hart.0 ≡ h) × (call.done.barrier ≡ Some b.barrier) }
    // As long as a thread waits in a barrier it stays on its hart, which makes no event but takes of requests.
    ensures waits { (s : Setting) (log : List Entry) (h left : ℕ) (b : Begun) → IsBlockRun s log
        → awaits h (history s log) ≡ Some left
        → begun_on h (history s log) ≡ Some b → IsWaiting s (history s log) h b }
    // The harts that it is about are others than its own, and ran a thread where it was called.
    ensures about { (s : Setting) (log : List Entry) (h k : ℕ) (b : Begun) → IsBlockRun s log
        → begun_on h (history s log) ≡ Some b
        → has_hart b.barrier.targets k ≡ true → (k ≢ h) × (running s k b.call ≢ None) }
    // A take of requests interrupts a thread only where one of them asks for a restart.
    ensures restarts { (s : Setting) (earlier later : List Entry) (entry : Entry)
        → IsBlockRun s (earlier ++ entry ∷ later)
        → entry.kind ≡ kind.Take → IsSome (done s (history s earlier) entry).interrupted
        → restart entry.hart.0 (history s earlier) ≡ true }
    // Each plain store that a hart which it is about executed before the call has entered memory.
    ensures stores { (s : Setting) (earlier later : List Entry) (entry : Entry) (b : Begun) (k : ℕ)
        → IsBlockRun s (earlier ++ entry ∷ later)
        → entry.kind ≡ kind.Done → begun_on entry.hart.0 (history s earlier) ≡ Some b
        → has_hart b.barrier.targets k ≡ true
        → length (stores k b.call) ≤ drains k (history s earlier) }
    // Where it asks for a restart, no sequence of such a hart has an entry before the call and one after the return: at each later
    // place the sequence that the hart's newest event is of began no earlier than the call.
    ensures sequences { (s : Setting) (earlier later : List Entry) (entry : Entry) (b : Begun) (k : ℕ)
        (q : Sequence)
        → IsBlockRun s (earlier ++ entry ∷ later) → entry.kind ≡ kind.Done
        → begun_on entry.hart.0 (history s earlier) ≡ Some b
        → has_hart b.barrier.targets k ≡ true → b.barrier.restart ≡ true
        → sequence_on s k (history s (earlier ++ entry ∷ later)) ≡ Some q → length b.call ≤ length q.begun }
{}

/// In a block run a guest call that gives an error changes, of thread files, memory and the kernel's record, only a0 and
/// the pc of its thread: a0 then has the negative of an error number, and the pc is past the call.
pub fn refused_call_changes_nothing()
    // Thread numbers are answers of calls too: with fewer than 2^31 of them none is mistaken for an error.
    ensures { (s : Setting) (earlier later : List Entry) (entry : Entry) → s.limits.steps < 2 ^ 31 - 1
        → IsBlockRun s (earlier ++ entry ∷ later) → GivesError s (history s earlier) entry
        → GivesErrorAlone s (history s earlier) entry }
{}

/// Two neighbouring entries of a block run may be exchanged where they are plain events of different harts, of which neither writes a
/// byte that the other reads or writes: the log with the two exchanged is a block run too, and after it all is as it was.
pub fn plain_events_swap()
    ensures { (s : Setting) (earlier later : List Entry) (e f : Entry) → IsBlockRun s (earlier ++ e ∷ f ∷ later) → MaySwap s earlier e f
        → IsEquivalentRun s (earlier ++ e ∷ f ∷ later) (earlier ++ f ∷ e ∷ later) }
{}

/// In a block run a walk is a stretch in which a thread runs on a hart and executes instructions that make neither a
/// fault nor a call, while the hart's waiting stores may enter memory, and other harts do what they will.
pub fn walks_are_computed()
    // At its end the thread's file is what the equations of its instructions, one after another, make of the file at its
    // start and of what each was answered: the bytes that it read, as its hart saw them, and its hart's reservation.
    ensures file { (s : Setting) (earlier stretch later : List Entry) (h t : ℕ)
        → IsBlockRun s (earlier ++ stretch ++ later)
        → IsWalk s h t (history s earlier) stretch
        → file s t (history s (earlier ++ stretch))
        ≡ computed s.program.pages (file s t (history s earlier)) (answers s h (history s earlier) stretch) }
    // The thread runs on the hart at each place of it.
    ensures throughout { (s : Setting) (earlier first rest later : List Entry) (h t : ℕ)
        → IsBlockRun s (earlier ++ first ++ rest ++ later)
        → IsWalk s h t (history s earlier) (first ++ rest)
        → running s h (history s (earlier ++ first)) ≡ Some t }
{}

/// At each place of a block run that hasn't ended the fixed rule of `solo` has a choice, which the machine makes.
pub fn rule_has_a_choice()
    ensures chooses { (s : Setting) (log : List Entry) → s.limits.harts ≡ 1 → IsBlockRun s log
        → end_of s (history s log) ≡ Unended
        → IsSome (solo_choice s (history s log)) }
    ensures makes { (s : Setting) (log : List Entry) (choice : Choice) → s.limits.harts ≡ 1 → IsBlockRun s log
        → end_of s (history s log) ≡ Unended
        → solo_choice s (history s log) ≡ Some choice → IsOk (decide s (history s log) 0 choice) }
    // Where hart 0 may execute its next instruction, that is the choice, if no signal can be delivered to its thread: a signal comes
    // first, and before it each waiting store.
    ensures allowed { (s : Setting) (log : List Entry) (entry : Entry)
        → decide s (history s log) 0 asked.Exec ≡ Ok entry
        → is_deliverable_on (here_in_history s (history s log) 0) (running s 0 (history s log)) ≡ false
        → solo_choice s (history s log) ≡ Some asked.Exec }
{}

/// What `run` chooses for a hart at a place of a block run is allowed there.
pub fn choices_are_allowed()
    ensures { (s : Setting) (seed : ℕ) (log : List Entry) (h : ℕ) (c : Choice) → IsBlockRun s log
        → choice_at s seed h (history s log) ≡ Some c
        → decide s (history s log) h c ≡ Ok (entry_in c (here_in_history s (history s log) h)) }
{}

/// At each place of a block run that hasn't ended some hart makes an entry by the choice of `run`.
pub fn some_hart_has_a_choice()
    ensures { (s : Setting) (seed : ℕ) (log : List Entry) → IsBlockRun s log → 0 < s.limits.harts
        → has_ended s (history s log) ≡ false
        → (h : ℕ) × (h < s.limits.harts) × IsSome (next_entry s seed h (history s log)) }
{}

/// A log of choices begins empty, and goes on by the entry that a hart makes next; what it begins with is one too.
pub fn chosen_runs_go_on()
    ensures start { (s : Setting) (seed : ℕ) → IsChosen s seed [] }
    ensures more { (s : Setting) (seed : ℕ) (log : List Entry) (h : ℕ) (e : Entry) → IsBlockRun s log
        → IsChosen s seed log
        → next_entry s seed h (history s log) ≡ Some e
        → IsBlockRun s (log ++ e ∷ []) × IsChosen s seed (log ++ e ∷ []) × (e.hart.0 ≡ h) }
    ensures shorter { (s : Setting) (seed : ℕ) (log more : List Entry) → IsChosen s seed (log ++ more)
        → IsChosen s seed log }
{}

/// While a hart makes no event, the thread that runs on it stays there with its file, and so do the words that the hart's
/// generator gave and the hart's credit. So a stretch that was lent of it can be appended later.
pub fn hart_stays_as_it_is()
    ensures { (s : Setting) (seed : ℕ) (log more : List Entry) (h t : ℕ) → IsBlockRun s (log ++ more)
        → running s h (history s log) ≡ Some t
        → events h (history s (log ++ more)) ≡ events h (history s log)
        → (running s h (history s (log ++ more)) ≡ Some t)
        × (file s t (history s (log ++ more)) ≡ file s t (history s log))
        × (luck s seed h (history s (log ++ more)) ≡ luck s seed h (history s log)) }
{}

/// A file starts one setting, whichever image of it is taken.
pub fn file_has_one_setting()
    ensures { (file : List ℕ) (a b : Image) (limits : Limits) → IsImage file a → IsImage file b
        → setting_of a limits ≡ setting_of b limits }
{}

/// A program that can be booted is laid out: its break is at most where mappings begin, and no page between is mapped.
pub fn loaded_programs_are_laid_out()
    ensures { (frames : ℕ) (image : Image) → IsBootable frames image → IsLaidOut (program_of image) }
{}
