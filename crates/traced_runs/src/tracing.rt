//! A trace: the lines of a run's log, below each what came of its event, and the run's end. It is told while a script is
//! played.

ghost use Rattle.std.specs.Prelude.{◌≡◌, ◌<◌, ◌≤◌, ◌++◌, ◌∷◌, [], Some, false, true, IfOk, IfErr, IfNone, IfSome, IsTrue, OnOk, codes, if◌then◌else◌, length};
ghost use Rattle.std.specs.List.{flat_map};
ghost use Rattle.mach_types.specs.Limits.{InRange};
ghost use Rattle.elf_load.specs.Images.{IsBootable};
ghost use Rattle.block_model.specs.Deciding.{end_of, history};
ghost use Rattle.block_model.specs.History.{kernel};
ghost use Rattle.block_model.specs.Choosing.{has_ended};
ghost use Rattle.block_model.specs.Replay.{is_as_said, made_by};
ghost use Rattle.block_model.specs.Run.{IsBlockRun};
ghost use Rattle.block_model.specs.Setting.{Seen, setting_of};
ghost use Rattle.block_view.specs.Following.{IsFollowing};
ghost use Rattle.block_view.specs.Ledgers.{kept_in};
ghost use Rattle.block_view.specs.Turns.{acts_left_open};
ghost use Rattle.script_runs.specs.Playing.{IsPlaying};
ghost use Rattle.traced_runs.specs.Tracing.{IsFollowed, IsFree, IsMadeLine, IsMadeNext, IsTraced, turn_text};
ghost use Rattle.event_facts.specs.Lines.{next_line};
ghost use Rattle.event_facts.specs.Telling.{IsDecided, past_of};
ghost use Rattle.event_facts.specs.Tied.{AreLinesOf};
ghost use Rattle.fact_text.specs.Lines.{changed_line, facts_text};
ghost use Rattle.place_text.specs.Ends.{number_line};
ghost use Rattle.step_log.specs.Text.{entry_text, space};
ghost use Rattle.std.specs.Fmt.{decimal};
ghost use Rattle.whole_runs.specs.PlayReasons.{IsPlayReason};
ghost use Rattle.whole_runs.specs.Asks.{ask_of};
ghost use Rattle.whole_runs.specs.BadLines.{line_fault};
ghost use Rattle.whole_runs.specs.Runs.{IsWholePlay};
ghost use Rattle.trace_text.specs.Traces as spec;
ghost use Rattle.trace_text.specs.Traces.{ends_line, event_text, open_text, stuck_text, trace_tail, waiting_line, waiting_text};

use crate::line_numbers::Hundreds;
use crate::sequences::{push_ends, push_turn};
use block_view::{Ahead, Ledger, Turn, ahead_of, seen_after, seen_ahead};
use call_reasons::{LineFault, Reason};
use command_words::LineSpan;
use elf_load::Image;
use event_facts::{Lines, trace, trace_freely};
use fact_text::{push_facts, put_changed};
use fact_types::Fact;
use log_lines::push_lines;
use mach_types::{Choice, End, Entry, Kind, Limits, ThreadState, Tid};
use machine_core::Machine;
use place_text::fields::{begin_line, push_named_value};
use place_text::{LineEnd, push_end, push_number_line};
use script_runs::is_as_said;
use std::alloc::{AllocError, Global};
use step_log::{Line, LineReader, exec_line};

/// The seed of a machine that draws no choice.
const NO_SEED: u64 = 0;

/// Whether the line of a number is told.
fn is_within(span: &LineSpan, number: usize) -> bool
    ensures { result ≡ spec.is_within span.now number }
{
    let ends = match span.to {
        Some(last) => number <= last as usize,
        None => true,
    };
    span.from as usize <= number && ends
}

/// What is followed of a log: which of its lines did what to memory, its restartable sequences, and the digits of its
/// lines' numbers.
#[derive(Drop)]
struct Followed {
    lines: Lines,
    ledger: Ledger,
    numbers: Hundreds,
}

impl Followed {
    /// That of a log with no entries, on so many harts. It errs only for want of memory.
    fn new(alloc: Global, harts: u8) -> Result<Followed, AllocError>
        ensures { (m : Seen) → m.setting.limits.harts ≡ harts → m.log ≡ []
            → IfOk result (λ followed. IsFollowed m followed) }
    {
        let lines = Lines::new(alloc, harts)?;
        let ledger = Ledger::new(alloc, harts)?;
        Ok(Followed {
            lines,
            ledger,
            numbers: Hundreds::of(0),
        })
    }
}

/// Whether an entry is an `exec` by a thread whose number is one digit, as most are.
#[inline(always)]
fn is_short(entry: Entry) -> bool
    ensures exec { IsTrue result → entry.kind ≡ Kind.Exec }
    ensures digit { IsTrue result → entry.tid.0 < 10 }
{
    entry.kind == Kind::Exec && entry.tid.0 < 10
}

/// Puts the line of such an entry, and that of its number but for the newline, before the end of a line or of several.
#[inline(always)]
fn put_head(line: &mut LineEnd, entry: Entry, numbers: &mut Hundreds, number: usize)
    requires room { length line.old ≤ 60 }
    requires hart { entry.hart.0 < 8 }
    requires exec { entry.kind ≡ Kind.Exec }
    requires digit { entry.tid.0 < 10 }
    ensures { line.new ≡ entry_text entry ++ codes "  line" ++ space ∷ decimal number ++ line.old }
{
    numbers.put(line, number as u64);
    line.put(b"  line");
    line.put(&exec_line(entry.hart, entry.tid, entry.pc));
}

/// Appends the line of an entry, and the number of that.
fn push_head(
    text: &mut Vec<u8>,
    entry: Entry,
    numbers: &mut Hundreds,
    number: usize,
) -> Result<(), AllocError>
    requires { entry.hart.0 < 8 }
    ensures { OnOk result (text.new.items ≡ text.old.items ++ (entry_text entry
        ++ number_line (codes "  line") number)) }
{
    if is_short(entry) {
        let mut line = LineEnd::newline();
        put_head(&mut line, entry, numbers, number);
        return line.append_to(text);
    }
    push_lines(text, &[entry])?;
    push_number_line(text, b"  line", number)
}

/// A register that has another value.
#[derive(Clone, Copy, Drop)]
struct Changed {
    number: u8,
    value: u64,
}

/// The register that changed, where nothing else is told.
#[inline(always)]
#[tactic(auto, unfolding(fact_text::specs::Lines::facts_text))]
fn changed_alone(facts: &[Fact]) -> Option<Changed>
    ensures { IfSome result (λ x. facts_text facts.now ≡ changed_line x.number x.value) }
{
    match facts {
        [Fact::Register { number, value }] => Some(Changed {
            number: *number,
            value: *value,
        }),
        _ => None,
    }
}

/// Appends the line of such an entry, the number of that, and the line of a register, by one append.
#[inline(always)]
fn push_short(
    text: &mut Vec<u8>,
    entry: Entry,
    numbers: &mut Hundreds,
    number: usize,
    changed: Changed,
) -> Result<(), AllocError>
    requires hart { entry.hart.0 < 8 }
    requires exec { entry.kind ≡ Kind.Exec }
    requires digit { entry.tid.0 < 10 }
    ensures { OnOk result (text.new.items ≡ text.old.items ++ (entry_text entry
        ++ number_line (codes "  line") number ++ changed_line changed.number changed.value)) }
{
    let mut line = LineEnd::newline();
    put_changed(&mut line, changed.number, changed.value);
    line.put(b"\n");
    put_head(&mut line, entry, numbers, number);
    line.append_to(text)
}

/// Appends the line of an entry, the number of that, and the lines of what came of it. Mostly that is one register alone.
fn push_told(
    text: &mut Vec<u8>,
    entry: Entry,
    numbers: &mut Hundreds,
    number: usize,
    facts: &[Fact],
) -> Result<(), AllocError>
    requires { entry.hart.0 < 8 }
    ensures { OnOk result (text.new.items ≡ text.old.items ++ (entry_text entry
        ++ number_line (codes "  line") number ++ facts_text facts.now)) }
{
    if is_short(entry) {
        if let Some(changed) = changed_alone(facts) {
            return push_short(text, entry, numbers, number, changed);
        }
    }
    push_head(text, entry, numbers, number)?;
    push_facts(text, facts)
}

/// Appends what is told of an entry: its line, the number of that, the lines of what came of it, and what it made of
/// the restartable sequences.
fn push_event(
    text: &mut Vec<u8>,
    entry: Entry,
    numbers: &mut Hundreds,
    number: usize,
    facts: &[Fact],
    turn: Option<Turn>,
) -> Result<(), AllocError>
    requires { entry.hart.0 < 8 }
    ensures { OnOk result (text.new.items ≡ text.old.items ++ (entry_text entry
        ++ number_line (codes "  line") number ++ facts_text facts.now ++ turn_text turn)) }
{
    push_told(text, entry, numbers, number, facts)?;
    push_turn(text, turn)?;
    Ok(())
}

/// Appends what is told of an entry, where the line of its number is told.
fn push_within(
    text: &mut Vec<u8>,
    span: &LineSpan,
    entry: Entry,
    numbers: &mut Hundreds,
    number: usize,
    facts: &[Fact],
    turn: Option<Turn>,
) -> Result<(), AllocError>
    requires { entry.hart.0 < 8 }
    ensures { OnOk result (text.new.items ≡ text.old.items ++ (if spec.is_within span.now number
        then entry_text entry ++ number_line (codes "  line") number ++ facts_text facts.now ++ turn_text turn
        else [])) }
{
    if !is_within(span, number) {
        return Ok(());
    }
    push_event(text, entry, numbers, number, facts, turn)?;
    Ok(())
}

/// An entry that was made.
#[derive(Clone, Copy, Drop)]
struct Made {
    /// The entry.
    entry: Entry,
    /// What was seen of its hart ahead of it.
    ahead: Ahead,
}

/// Appends what is told of an entry that a machine has made last, of which these are the facts, where its
/// line is told; and follows it. The entry must be the first of the machine that isn't followed yet.
fn push_made(
    text: &mut Vec<u8>,
    span: &LineSpan,
    machine: &Machine,
    followed: &mut Followed,
    made: &Made,
    facts: &[Fact],
) -> Result<(), AllocError>
    requires limits { InRange machine.now.setting.limits }
    requires made { (m : Seen) × IsMadeNext m machine.now followed.old made.now facts.now }
    ensures followed { (m : Seen) → IsMadeNext m machine.now followed.old made.now facts.now
        → OnOk result (IsFollowed machine.now followed.new) }
    ensures text { (m : Seen) → IsMadeNext m machine.now followed.old made.now facts.now
        → OnOk result (text.new.items ≡ text.old.items ++ (if spec.is_within span.now (next_line (past_of m))
        then event_text m.setting (past_of m) made.now.entry else [])) }
{
    let entry = made.entry;
    let passed = seen_after(machine, entry, made.ahead);
    let turn = followed.ledger.follow(&passed)?;
    let number = machine.log().len();
    push_within(
        text,
        span,
        entry,
        &mut followed.numbers,
        number,
        facts,
        turn,
    )?;
    Ok(())
}

/// Appends the lines of the restartable sequences that no line of a machine's log has ended.
fn push_unended(
    alloc: Global,
    text: &mut Vec<u8>,
    ledger: Ledger,
    machine: &Machine,
) -> Result<(), AllocError>
    requires { IsFollowing machine.now (kept_in ledger) }
    ensures { let s = machine.now.setting in OnOk result (text.new.items
        ≡ text.old.items ++ flat_map ends_line (acts_left_open s (history s machine.now.log))) }
{
    let acts = ledger.ends(alloc, machine, machine.harts())?;
    push_ends(text, &acts)?;
    Ok(())
}

/// Appends the same, where the last line of the log is told.
fn push_open(
    alloc: Global,
    text: &mut Vec<u8>,
    span: &LineSpan,
    ledger: Ledger,
    machine: &Machine,
) -> Result<(), AllocError>
    requires { IsFollowing machine.now (kept_in ledger) }
    ensures { OnOk result (text.new.items
        ≡ text.old.items ++ open_text span.now machine.now.setting machine.now.log) }
{
    if !is_within(span, machine.log().len()) {
        return Ok(());
    }
    push_unended(alloc, text, ledger, machine)?;
    Ok(())
}

/// Appends the line of a thread that is in this state, where it waits.
fn push_waiting(
    text: &mut Vec<u8>,
    number: u32,
    state: Option<ThreadState>,
) -> Result<(), AllocError>
    ensures { OnOk result (text.new.items ≡ text.old.items ++ waiting_line number state) }
{
    if let Some(ThreadState::Waiting(at)) = state {
        begin_line(text, b"thread", u64::from(number))?;
        push_named_value(text, b"waiting", at)?;
        text.push(b'\n')?;
    }
    Ok(())
}

/// Appends the lines of the threads of a machine that wait, in rising order of number.
#[tactic(auto, unfolding(trace_text::specs::Traces::waiting_text))]
fn push_all_waiting(text: &mut Vec<u8>, machine: &Machine) -> Result<(), AllocError>
    ensures { let s = machine.now.setting in OnOk result (text.new.items ≡ text.old.items
        ++ waiting_text (kernel s (history s machine.now.log)).threads) }
{
    let threads = &machine.kernel().threads;
    for earlier in 0..threads.numbers_given() {
        push_waiting(text, earlier + 1, threads.state(Tid(earlier + 1)))?;
    }
    Ok(())
}

/// Appends the lines of the threads that wait, where the run is stuck at which a machine is.
fn push_stuck(text: &mut Vec<u8>, machine: &Machine) -> Result<(), AllocError>
    ensures { let s = machine.now.setting in let before = history s machine.now.log in
        OnOk result (text.new.items ≡ text.old.items ++ stuck_text (end_of s before) (kernel s before).threads) }
{
    match machine.end() {
        End::Stuck => push_all_waiting(text, machine),
        End::Exit(_) | End::Killed(_) | End::Limit | End::Unended => Ok(()),
    }
}

/// Appends the end of a run, at which a machine is, behind the threads that wait, where it is stuck.
fn push_tail(text: &mut Vec<u8>, machine: &Machine) -> Result<(), AllocError>
    ensures { let s = machine.now.setting in OnOk result (text.new.items ≡ text.old.items
        ++ trace_tail s (history s machine.now.log)) }
{
    push_stuck(text, machine)?;
    push_end(text, machine.end())
}

/// A run by a script that was told while it was made.
#[derive(Drop)]
pub struct TracedRun {
    /// The machine at the end of the run.
    pub machine: Machine,
    /// Its trace.
    pub text: Vec<u8>,
}

/// Plays a script as [`play`](crate::play) does, and tells the lines of a span, event by event.
///
/// Refused as that is.
#[tactic(auto, unfolding(trace_text::specs::Traces::trace_text))]
pub fn play_traced(
    alloc: Global,
    image: &Image,
    limits: Limits,
    span: &LineSpan,
    script: &[u8],
) -> Result<TracedRun, Reason>
    requires image { IsBootable limits.frames image.now }
    requires limits { InRange limits }
    ensures whole { IfOk result (λ run. IsWholePlay (setting_of image.now limits) script.now run.machine) }
    ensures text { IfOk result
        (λ run. run.text.items ≡ spec.trace_text span.now run.machine.setting run.machine.log) }
    ensures cause { IfErr result (IsPlayReason (setting_of image.now limits) script.now) }
{
    let mut machine = Machine::boot(alloc, image, limits, NO_SEED)?;
    let mut followed = Followed::new(alloc, limits.harts)?;
    let mut text = Vec::new(alloc);
    let mut facts = Vec::new(alloc);
    let mut reader = LineReader::new(script);
    'lines: while tell_next(
        alloc,
        &mut text,
        span,
        &mut machine,
        &mut followed,
        &mut facts,
        &mut reader,
        script,
    )? {}
    push_open(alloc, &mut text, span, followed.ledger, &machine)?;
    push_tail(&mut text, &machine)?;
    Ok(TracedRun { machine, text })
}

/// Whether the run of a machine goes on.
#[inline(always)]
fn goes_on(machine: &Machine) -> bool
    requires { IsBlockRun machine.now.setting machine.now.log }
    ensures { IsTrue result → has_ended machine.now.setting (past_of machine.now) ≡ false }
{
    match machine.end() {
        End::Unended => true,
        End::Exit(_) | End::Killed(_) | End::Stuck | End::Limit => false,
    }
}

/// Whether a line asks for an instruction of a hart of a machine whose run goes on.
#[inline(always)]
fn may_go(machine: &Machine, line: &Line) -> bool
    requires { IsBlockRun machine.now.setting machine.now.log }
    ensures exec { IsTrue result → line.now.choice ≡ Choice.Exec }
    ensures hart { IsTrue result → line.now.hart.0 < machine.now.setting.limits.harts }
    ensures goes { IsTrue result → has_ended machine.now.setting (past_of machine.now) ≡ false }
{
    matches!(line.choice, Choice::Exec) && line.hart.0 < machine.harts() && goes_on(machine)
}

/// Makes the event of a line, where that is an instruction that sets a register and the pc alone, as most
/// are, and appends to the facts what came of it. None where it isn't one; then nothing is made or told.
#[inline(always)]
fn make_freely(
    facts: &mut Vec<Fact>,
    machine: &mut Machine,
    line: &Line,
) -> Result<Option<Made>, AllocError>
    requires { IsBlockRun machine.old.setting machine.old.log }
    ensures made { IfOk result (λ made. IfSome made
        (IsFree machine.old machine.new line.now facts.old.items facts.new.items)) }
    ensures none { IfOk result (λ made. IfNone made (machine.new ≡ machine.old)) }
    ensures untold { IfOk result (λ made. IfNone made (facts.new.items ≡ facts.old.items)) }
{
    if !may_go(machine, line) {
        return Ok(None);
    }
    let ahead = ahead_of(machine, line.hart, Kind::Exec);
    match trace_freely(facts, machine, line.hart)? {
        Some(entry) => Ok(Some(Made { entry, ahead })),
        None => Ok(None),
    }
}

/// Makes the event of a line, and appends to the facts what came of it; or says what is wrong with the line.
fn make_due(
    alloc: Global,
    facts: &mut Vec<Fact>,
    machine: &mut Machine,
    lines: &mut Lines,
    line: &Line,
) -> Result<Result<Made, LineFault>, AllocError>
    requires limits { InRange machine.old.setting.limits }
    requires run { IsBlockRun machine.old.setting machine.old.log }
    requires lines { AreLinesOf machine.old.setting.limits.harts (past_of machine.old) lines.old }
    ensures made { IfOk result (λ r. IfOk r
        (IsMadeLine machine.old machine.new line.now facts.old.items facts.new.items lines.new)) }
    ensures refused { IfOk result (λ r. IfErr r
        (λ fault. line_fault machine.old.setting machine.old.log (Some (ask_of line.now)) ≡ Some fault)) }
{
    match due_entry(machine, line) {
        Ok(entry) => {
            let ahead = seen_ahead(machine, entry);
            trace(alloc, facts, machine, lines, entry)?;
            Ok(Ok(Made { entry, ahead }))
        }
        Err(fault) => Ok(Err(fault)),
    }
}

/// The same, by one look where the event is an instruction that sets a register and the pc alone.
fn make_line(
    alloc: Global,
    facts: &mut Vec<Fact>,
    machine: &mut Machine,
    lines: &mut Lines,
    line: &Line,
) -> Result<Result<Made, LineFault>, AllocError>
    requires limits { InRange machine.old.setting.limits }
    requires run { IsBlockRun machine.old.setting machine.old.log }
    requires lines { AreLinesOf machine.old.setting.limits.harts (past_of machine.old) lines.old }
    ensures made { IfOk result (λ r. IfOk r
        (IsMadeLine machine.old machine.new line.now [] facts.new.items lines.new)) }
    ensures refused { IfOk result (λ r. IfErr r
        (λ fault. line_fault machine.old.setting machine.old.log (Some (ask_of line.now)) ≡ Some fault)) }
{
    facts.clear();
    match make_freely(facts, machine, line)? {
        Some(made) => {
            if is_as_said(line.check, made.entry) {
                Ok(Ok(made))
            } else {
                Ok(Err(LineFault::Differs(made.entry)))
            }
        }
        None => make_due(alloc, facts, machine, lines, line),
    }
}

/// Plays the next line of a script, and appends what is told of its event, where its line is told; false where
/// none is left.
fn tell_next(
    alloc: Global,
    text: &mut Vec<u8>,
    span: &LineSpan,
    machine: &mut Machine,
    followed: &mut Followed,
    facts: &mut Vec<Fact>,
    reader: &mut LineReader<'_>,
    script: &[u8],
) -> Result<bool, Reason>
    requires limits { InRange machine.old.setting.limits }
    requires playing { IsPlaying script.now machine.old reader.old }
    requires told { IsTraced span.now machine.old followed.old text.old.items }
    ensures setting { OnOk result (machine.new.setting ≡ machine.old.setting) }
    ensures playing { IfOk result (λ more. IsPlaying script.now machine.new reader.new) }
    ensures told { OnOk result (IsTraced span.now machine.new followed.new text.new.items) }
    ensures shorter { IfOk result (λ more. IsTrue more → length reader.new.left < length reader.old.left) }
    ensures whole { IfOk result
        (λ more. more ≡ false → IsWholePlay machine.old.setting script.now machine.new) }
    ensures refused { IfErr result (IsPlayReason machine.old.setting script.now) }
{
    let number = machine.log().len() as u64 + 1;
    match reader.next_line() {
        Ok(None) => Ok(false),
        Ok(Some(line)) => match make_line(alloc, facts, machine, &mut followed.lines, &line)? {
            Ok(made) => {
                push_made(text, span, machine, followed, &made, facts)?;
                Ok(true)
            }
            Err(fault) => Err(Reason::Script {
                line: number,
                fault,
            }),
        },
        Err(_) => Err(Reason::Script {
            line: number,
            fault: LineFault::Malformed,
        }),
    }
}

/// The entry of the event of a line, which is yet to be made; unless it isn't allowed, or its thread or pc isn't
/// as the line says.
fn due_entry(machine: &Machine, line: &Line) -> Result<Entry, LineFault>
    ensures decided { IfOk result (IsDecided machine.now) }
    ensures made { IfOk result
        (λ entry. made_by machine.now.setting machine.now.log (ask_of line.now) ≡ Some entry) }
    ensures refused { IfErr result
        (λ fault. line_fault machine.now.setting machine.now.log (Some (ask_of line.now)) ≡ Some fault) }
{
    match machine.answer(line.hart, line.choice) {
        Ok(entry) => {
            if is_as_said(line.check, entry) {
                Ok(entry)
            } else {
                Err(LineFault::Differs(entry))
            }
        }
        Err(refused) => Err(LineFault::Refused(refused)),
    }
}
