//! Laws of lines, each as the contract of a function that does nothing.

ghost use Rattle.std.specs.Prelude.{◌≡◌, ℕ, List, Some, is_some};
ghost use Rattle.mach_types.specs.{Events.choice_of, declared.events.Choice.Choice, declared.events.Entry.Entry};
ghost use Rattle.block_model.specs.{Deciding.history, History.History, History.here_in_history};
ghost use Rattle.block_model.specs.{Events.done_of, Here.Here, Run.IsBlockRun, Setting.Setting};
ghost use Rattle.event_facts.specs.{Facts.facts_of, Killing.killing, Killing.kills, Telling.plain_event_of};
ghost use Rattle.event_facts.specs.{Told.AreExecuted, Told.AreWaiting, Told.IsAsWritten, Trace.trace_of};
ghost use Rattle.event_facts.specs.declared.telling.PlainEvent.{PlainEvent};

/// After a block run the stores that are told to wait on a hart are those that wait there, in their order, and
/// that hart executed each of them in its line; and a byte of memory was written in the line that is told to
/// have written it last, and is as that left it, since none has written it after that.
pub fn lines_are_told_rightly()
    ensures waiting { (s : Setting) (log : List Entry) (h : ℕ) → IsBlockRun s log → AreWaiting h (history s log) }
    ensures executed { (before : History) (h : ℕ) → AreExecuted h before }
    ensures written { (s : Setting) (before : History) (a : ℕ) → IsAsWritten s before a }
{}

/// All that is told of a plain event are its facts of memory, of reservations and of registers: it is neither a
/// fault nor a call, neither takes requests nor lets a barrier return, interrupts no thread, delivers no signal,
/// changes neither what is pending nor a thread's state, and doesn't kill.
pub fn plain_events_are_told_by_their_facts()
    ensures { (s : Setting) (before : History) (entry : Entry) (event : PlainEvent)
        → plain_event_of (choice_of entry) (here_in_history s before entry.hart.0) ≡ Some event
        → trace_of s before entry ≡ facts_of s before entry }
{}

/// Why an event kills is told exactly where it ends its process by a signal: each way in which one does so has a
/// reason, and nothing else has one.
pub fn kills_are_told_with_their_reason()
    ensures { (here : Here) (c : Choice) → kills (done_of c here).ended ≡ is_some (killing c here) }
{}
