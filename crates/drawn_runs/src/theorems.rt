//! Laws of drawn runs, each as the contract of a function that does nothing.

ghost use Rattle.std.specs.Prelude.{◌≡◌, ◌<◌, ◌≤◌, ◌++◌, [], ◌∷◌, false, true, List, Some, Ok, IsSome, length};
ghost use Rattle.mach_types.specs.declared.events.Choice.TheVariants as asked;
ghost use Rattle.mach_types.specs.declared.events.Entry.{Entry};
ghost use Rattle.chooser.specs.Cases.{emptied_before};
ghost use Rattle.block_model.specs.Choosing.{has_ended};
ghost use Rattle.block_model.specs.Deciding.{decide, history};
ghost use Rattle.block_model.specs.{Run.IsBlockRun, Setting.Setting};
ghost use Rattle.drawings.specs.Drawings.{Drawn};
ghost use Rattle.drawn_runs.specs.declared.manner.Manner.{Manner};
ghost use Rattle.drawn_runs.specs.DrawnRuns.{IsDrawn, drawn_at, drawn_entry, entry_of, scene_at};
ghost use Rattle.drawn_runs.specs.OwnSignals.{owes};
ghost use Rattle.drawn_runs.specs.WholeRuns.{IsDrawnRun};
ghost use Rattle.prompt_runs.specs.Prompt.{IsPrompt};

/// What is drawn at a place of a block run is allowed there.
pub fn drawn_events_are_allowed()
    ensures { (s : Setting) (m : Manner) (log : List Entry) (x : Drawn) → 0 < s.limits.harts
        → s.limits.harts ≤ 8 → IsBlockRun s log → drawn_at s m (history s log) ≡ Some x
        → decide s (history s log) x.hart x.choice ≡ Ok (entry_of s (history s log) x) }
{}

/// At each place of a block run that hasn't ended, an event is drawn.
pub fn an_event_is_drawn()
    ensures { (s : Setting) (m : Manner) (log : List Entry) → 0 < s.limits.harts
        → s.limits.harts ≤ 8 → IsBlockRun s log → has_ended s (history s log) ≡ false
        → IsSome (drawn_entry s m (history s log)) }
{}

/// A drawn log begins behind its script, and goes on by the entry that is drawn.
pub fn drawn_runs_go_on()
    ensures start { (s : Setting) (m : Manner) (log : List Entry) → length log ≤ m.scripted
        → IsDrawn s m log }
    ensures more { (s : Setting) (m : Manner) (log : List Entry) (e : Entry) → 0 < s.limits.harts
        → s.limits.harts ≤ 8 → IsBlockRun s log → IsDrawn s m log
        → drawn_entry s m (history s log) ≡ Some e
        → IsBlockRun s (log ++ e ∷ []) × IsDrawn s m (log ++ e ∷ []) }
{}

/// A signal that a thread sends to itself, or unmasks, and that of its fault, is delivered before anything else is done on its hart: where
/// a hart owes its thread a signal, its next event that is drawn is that its oldest waiting store enters memory, and where none waits
/// the delivery. A thread that waits in a barrier is delivered its signal behind that.
pub fn own_signals_come_at_once()
    ensures { (s : Setting) (m : Manner) (log : List Entry) (x : Drawn) → 0 < s.limits.harts
        → s.limits.harts ≤ 8 → IsDrawn s m log → drawn_at s m (history s log) ≡ Some x
        → owes s m x.hart (history s log) ≡ true
        → ((scene_at s (history s log)).sight x.hart).in_barrier ≡ false
        → x.choice ≡ emptied_before ((scene_at s (history s log)).sight x.hart) asked.Signal }
{}

/// A run that is drawn without a script is prompt: each signal that a hart owes its thread comes at once.
pub fn drawn_runs_are_prompt()
    ensures { (s : Setting) (m : Manner) (log : List Entry) → 0 < s.limits.harts → s.limits.harts ≤ 8
        → m.scripted ≡ 0 → IsBlockRun s log → IsDrawn s m log → IsPrompt s log }
{}

/// Whole drawn runs of one manner that begin with the same entries, no fewer than a script made, go on alike: without a script there
/// is one such run.
pub fn drawn_runs_are_one()
    ensures { (s : Setting) (m : Manner) (first more other : List Entry) → m.scripted ≤ length first
        → IsDrawnRun s m (first ++ more) → IsDrawnRun s m (first ++ other) → more ≡ other }
{}
