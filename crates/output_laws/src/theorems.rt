//! Laws of the outputs, each as the contract of a function that does nothing.

ghost use Rattle.std.specs.Prelude.{◌≡◌, ◌<◌, ◌++◌, codes, false, ℕ, List, Option, Some, All, AllPairs, IsSome};
ghost use Rattle.mach_types.specs.{declared.events.Entry.Entry, Limits.InRange};
ghost use Rattle.step_log.specs.Grammar.{log_text};
ghost use Rattle.block_model.specs.Setting.{Setting, setting_of};
ghost use Rattle.log_gather.specs.Gathered.{gathered};
ghost use Rattle.draw_policies.specs.Policies.{policy_for};
ghost use Rattle.draw_policies.specs.declared.outcome_keys.OutcomeKey.TheVariants.{ByText, ByEnd};
ghost use Rattle.draw_policies.specs.declared.policies.Policies.{Policies};
ghost use Rattle.explored_runs.specs.declared.explored.Found.{Found};
ghost use Rattle.outcomes.specs.Explorations.{IsExploreOutput};
ghost use Rattle.outcomes.specs.Needs.{needs_of};
ghost use Rattle.outcomes.specs.Outcome.{Call, IsOutcome};
ghost use Rattle.outcomes.specs.PairFiles.{IsPairOutput};
ghost use Rattle.outcomes.specs.Outputs.{IsOutput, IsOutputOf, IsPlainOutput, IsPlayOutput, IsRunOutput};
ghost use Rattle.outcomes.specs.Outputs.{setting_for};
ghost use Rattle.outcomes.specs.Programs.{Files, IsReadAs};
ghost use Rattle.whole_runs.specs.Rounds.{IsRoundsRun};
ghost use Rattle.whole_runs.specs.Runs.{IsChosenRun};
ghost use Rattle.outcomes.specs.Told.{AreTold, TellsGoodFiles};
ghost use Rattle.output_laws.specs.Agreement.{AreAlike, HasOneOutput, IsOneStatus, WroteOneText};
ghost use Rattle.output_laws.specs.DrawnOutcomes.{HasOutcome, drawing};
ghost use Rattle.output_laws.specs.PrintedEnds.{HasEnd, HasOtherEnd};
ghost use Rattle.search_text.specs.Text.{printed};
ghost use Rattle.command_words.specs.Shown.{Gathered, Output};
ghost use Rattle.command_words.specs.declared.commands.SearchSettings.{SearchSettings};
ghost use Rattle.command_words.specs.declared.commands.Settings.{Settings};
ghost use Rattle.found_outcomes.specs.Complete.{IsComplete, IsCompleteWithin};
ghost use Rattle.found_outcomes.specs.declared.findings.OutcomeFound.{OutcomeFound};
ghost use Rattle.outcomes.specs.Searches.{IsSearchOutput};
ghost use Rattle.place_text.specs.Ends.{number_line};
ghost use Rattle.command_words.specs.Commands.{Command, PairRun, Run, depends_on_host};

/// The log lines of the output of a run, read as a script by `play` with the same program and limits, are allowed at
/// every line and give the same output text. The shelf of the later call has the same program, and those
/// lines as the script.
pub fn printed_log_replays()
    ensures { (files later : Files) (run : Run) (script written : List ℕ)
        → InRange run.limits → run.shown ≡ Output → later run.program ≡ files run.program
        → (output : IsRunOutput files run written) → IsReadAs later script (log_text output.log)
        → IsPlayOutput later run.program script run.limits written }
{}

/// The log lines of an output with a gathered log, read as a script by `play` in the same way, are allowed at
/// every line too, and give the same output text: the console and the end beside them are those that they come
/// to.
pub fn gathered_log_replays()
    ensures { (files later : Files) (run : Run) (script written : List ℕ)
        → InRange run.limits → run.shown ≡ Gathered → later run.program ≡ files run.program
        → (output : IsRunOutput files run written)
        → IsReadAs later script (log_text (gathered (setting_for run output.image) output.log))
        → IsPlayOutput later run.program script run.limits written }
{}

/// The log lines of an output of `pair`, read as a script by `pair` with the same programs and limits, are allowed at every line and
/// give the same output text.
pub fn printed_pair_replays()
    ensures { (files later : Files) (pair : PairRun) (script written : List ℕ) → InRange pair.limits
        → later pair.first ≡ files pair.first → later pair.second ≡ files pair.second
        → (output : IsPairOutput files pair written) → IsReadAs later script (log_text output.seen.log)
        → IsPairOutput later (record pair { script = script }) written }
{}

/// Where a shelf tells the files that a command needs, and it needs nothing else, there is one output, unless its log
/// comes about by workers, or it searches for all outcomes: which it is depends on their bytes, the limits and, for `draw` and
/// `explore`, the seeds and the options alone. Which one comes of `run` hangs also on the order in which the harts take turns, and
/// which one of `outcomes` on how much memory there is. And where there is an output, the files are good.
pub fn told_files_have_one_output()
    ensures one { (files : Files) (command : Option Command) (written other : List ℕ)
        → depends_on_host command ≡ false → AreTold files (needs_of command)
        → IsOutputOf files command written → IsOutputOf files command other → written ≡ other }
    ensures good { (files : Files) (command : Option Command) (written : List ℕ)
        → AreTold files (needs_of command)
        → IsOutputOf files command written → TellsGoodFiles files (needs_of command) }
{}

/// The output of the words is what the plain machine's own run prints.
pub fn plain_machine_prints()
    ensures { (files : Files) (words : List (List ℕ)) (written : List ℕ)
        → IsOutput files words written → IsPlainOutput files words written }
{}

/// A run by rounds is one that workers can make, who choose by the same seed; and of a setting and a seed there is one.
pub fn rounds_make_one_log()
    ensures chosen { (s : Setting) (seed : ℕ) (log : List Entry) → IsRoundsRun s seed log → IsChosenRun s seed log }
    ensures one { (s : Setting) (seed : ℕ) (log other : List Entry)
        → IsRoundsRun s seed log → IsRoundsRun s seed other → log ≡ other }
{}

/// The seed of an outcome that `explore` tells, drawn by `draw` with the policy that is told with it, or with the policies of the
/// exploration, and with all else as the exploration has it, comes to that outcome.
pub fn explored_outcomes_are_drawn()
    // there is such an output
    ensures some { (files later : Files) (program written : List ℕ) (settings : Settings) (policies : Policies)
        → later program ≡ files program → (output : IsExploreOutput files program settings written)
        → All (λ (f : Found). policy_for policies f.seed ≡ f.policy → (text : List ℕ)
        × IsRunOutput later (drawing program settings policies f) text × HasOutcome settings f text)
        output.account.found }
    // and each output is such a one, where the shelf tells the program
    ensures each { (files later : Files) (program written : List ℕ) (settings : Settings) (policies : Policies)
        → later program ≡ files program → IsSome (later program)
        → (output : IsExploreOutput files program settings written)
        → All (λ (f : Found). policy_for policies f.seed ≡ f.policy → (text : List ℕ)
        → IsRunOutput later (drawing program settings policies f) text → HasOutcome settings f text)
        output.account.found }
{}

/// Two calls on the same words and the same files, where these are told and no device fails: they answer one status, unless memory runs
/// out in one of them. So it is of `rseq_main` and `rseq_quiet`, whose answers are outcomes both.
pub fn calls_agree()
    ensures status { (a b : Call) (status other : ℕ) → AreAlike a b → IsOutcome a status → IsOutcome b other
        → IsOneStatus status other }
    // and where they answer one status, they write one text, but for the output of a run by workers, of a search or of a guest
    ensures text { (a b : Call) (status : ℕ) → AreAlike a b → IsOutcome a status → IsOutcome b status
        → (status ≡ 0 → HasOneOutput a) → WroteOneText a b }
{}

/// Where the last line of an output of `outcomes` is `complete`, its outcomes are those of every run that ends, of the runs that
/// `--signals` speaks of. No other text of a search ends in this line, whatever the consoles hold.
pub fn complete_outputs_have_every_outcome()
    ensures { (files : Files) (program written before : List ℕ) (settings : SearchSettings)
        → (output : IsSearchOutput files program settings written) → written ≡ before ++ codes "complete\n"
        → IsComplete (setting_of output.image settings.limits) settings.signals output.found.outcomes.items }
{}

/// Where it is `complete preemptions P`, they are those of every run that ends and has P lines `preempt` at most; and so many were asked
/// for. No other text of a search ends in this line either.
pub fn limited_outputs_have_every_outcome()
    ensures { (files : Files) (program written before : List ℕ) (settings : SearchSettings) (p : ℕ)
        → (output : IsSearchOutput files program settings written)
        → p < 256 → written ≡ before ++ number_line (codes "complete preemptions") p
        → (settings.preemptions ≡ Some p)
        × IsCompleteWithin (setting_of output.image settings.limits) settings.signals p output.found.outcomes.items }
{}

/// Of the outcomes that a search found each is printed, or with `--by end` the first with each end. So where every run that ends is one of
/// those that were found, its end is one of those that are printed; and no end is printed twice.
pub fn printed_outcomes_have_every_end()
    ensures all { (os : List OutcomeFound) → printed ByText os ≡ os }
    ensures each { (os : List OutcomeFound) → All (λ (o : OutcomeFound). HasEnd (printed ByEnd os) o.end) os }
    ensures once { (os : List OutcomeFound) → AllPairs HasOtherEnd (printed ByEnd os) }
{}
