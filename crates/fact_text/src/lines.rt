//! The line of a fact.

ghost use Rattle.std.specs.Prelude.{◌≡◌, ◌+◌, ◌≤◌, [], ◌∷◌, ◌++◌, OnOk, length};
ghost use Rattle.std.specs.Fmt.{decimal};
ghost use Rattle.step_log.specs.Text.{space};
ghost use Rattle.fact_text.specs.Lines as spec;
ghost use Rattle.place_text.specs.Fields.{behind, value_text};

use crate::call_names::{call_name, errno_name, told_count};
use fact_types::{
    AreaField, Fact, FaultWhy, Interruption, KillWhy, Source, SystemCall, ThreadChange, WrongWord,
};
use mach_types::{BadWhy, Hart, Store, Tid};
use place_text::fields::{
    push_harts, push_named_number, push_named_value, push_number, push_value, push_value_or_none,
    push_word, push_yes_or_no,
};
use place_text::{LineEnd, bad_word, put_register};
use std::alloc::AllocError;

/// Puts where bytes come from before the end of a line.
fn put_source(line: &mut LineEnd, source: Source)
    requires { length line.old ≤ 8 }
    ensures text { line.new ≡ behind (spec.source_fields source) ++ line.old }
    ensures length { length line.new ≤ length line.old + 30 }
{
    match source {
        Source::Start => line.put(b" start"),
        Source::Memory(number) => {
            line.put_number(u64::from(number));
            line.put(b" memory");
        }
        Source::Waiting(number) => {
            line.put_number(u64::from(number));
            line.put(b" store");
        }
    }
}

/// Puts an address, a size and a value before the end of a line.
fn put_bytes(line: &mut LineEnd, at: u64, size: u8, value: u64)
    requires { length line.old ≤ 50 }
    ensures text { line.new ≡ behind (value_text at ∷ decimal size ∷ value_text value ∷ []) ++ line.old }
    ensures length { length line.new ≤ length line.old + 60 }
{
    line.put_value(value);
    line.put_number(u64::from(size));
    line.put_value(at);
}

/// Appends the line of bytes that were read.
fn push_read(
    text: &mut Vec<u8>,
    at: u64,
    size: u8,
    value: u64,
    source: Source,
) -> Result<(), AllocError>
    ensures { OnOk result (text.new.items ≡ text.old.items ++ spec.read_line at size value source) }
{
    let mut line = LineEnd::newline();
    put_source(&mut line, source);
    put_bytes(&mut line, at, size, value);
    line.put(b"  read");
    line.append_to(text)
}

/// Appends the line of a store that waits.
fn push_waits(text: &mut Vec<u8>, store: Store) -> Result<(), AllocError>
    ensures { OnOk result (text.new.items ≡ text.old.items ++ spec.waits_line store) }
{
    let mut line = LineEnd::newline();
    put_bytes(&mut line, store.at, store.size, store.value);
    line.put(b"  waits");
    line.append_to(text)
}

/// Appends the line of a store that entered memory.
fn push_wrote(text: &mut Vec<u8>, store: Store, old: u64, number: u32) -> Result<(), AllocError>
    ensures { OnOk result (text.new.items ≡ text.old.items ++ spec.wrote_line store old number) }
{
    let mut line = LineEnd::newline();
    line.put_number(u64::from(number));
    line.put(b" line");
    line.put_value(old);
    line.put(b" old");
    put_bytes(&mut line, store.at, store.size, store.value);
    line.put(b"  wrote");
    line.append_to(text)
}

/// Appends the line of a write of the kernel.
fn push_kernel_wrote(text: &mut Vec<u8>, store: Store, number: u32) -> Result<(), AllocError>
    ensures { OnOk result (text.new.items ≡ text.old.items ++ spec.kernel_wrote_line store number) }
{
    let mut line = LineEnd::newline();
    line.put_number(u64::from(number));
    line.put(b" line");
    put_bytes(&mut line, store.at, store.size, store.value);
    line.put(b"  wrote");
    line.append_to(text)
}

/// Appends the line of bytes that became 0.
fn push_zeroed(text: &mut Vec<u8>, at: u64, length: u64) -> Result<(), AllocError>
    ensures { OnOk result (text.new.items ≡ text.old.items ++ spec.zeroed_line at length) }
{
    text.extend_from_slice(b"  zeroed")?;
    push_value(text, at)?;
    push_number(text, length)?;
    text.push(b'\n')?;
    Ok(())
}

/// Appends a line of a word, and an address or a value.
fn push_address(text: &mut Vec<u8>, word: &[u8], at: u64) -> Result<(), AllocError>
    ensures { OnOk result (text.new.items ≡ text.old.items ++ spec.address_line word.now at) }
{
    text.extend_from_slice(word)?;
    push_value(text, at)?;
    text.push(b'\n')?;
    Ok(())
}

/// Appends the line of a reservation that another hart lost.
fn push_lost(text: &mut Vec<u8>, hart: Hart, at: u64, by: u64) -> Result<(), AllocError>
    ensures { OnOk result (text.new.items ≡ text.old.items ++ spec.lost_line hart.0 at by) }
{
    text.extend_from_slice(b"  lost")?;
    push_number(text, u64::from(hart.0))?;
    push_value(text, at)?;
    push_named_value(text, b"by", by)?;
    text.push(b'\n')?;
    Ok(())
}

/// Puts the line of a register that changed, but for its newline, before the end of a line or of several.
#[inline(always)]
pub fn put_changed(line: &mut LineEnd, number: u8, value: u64)
    requires { length line.old ≤ 60 }
    ensures text { line.new ≡ spec.changed_fields number value ++ line.old }
    ensures length { length line.new ≤ length line.old + 50 }
{
    line.put_value(value);
    put_register(line, number);
    line.put(b" ");
}

/// Appends the line of a register that changed.
fn push_changed(text: &mut Vec<u8>, number: u8, value: u64) -> Result<(), AllocError>
    ensures { OnOk result (text.new.items ≡ text.old.items ++ spec.changed_line number value) }
{
    let mut line = LineEnd::newline();
    put_changed(&mut line, number, value);
    line.append_to(text)
}

/// The word of why an instruction faults.
fn why_word(why: FaultWhy) -> &'static [u8]
    ensures { result.now ≡ spec.why_word why }
{
    match why {
        FaultWhy::NotAligned => b"not-aligned",
        FaultWhy::NotExecutable => b"not-executable",
        FaultWhy::NoInstruction => b"no-instruction",
        FaultWhy::Breakpoint => b"breakpoint",
        FaultWhy::MisalignedJump => b"misaligned-jump",
        FaultWhy::MisalignedAccess => b"misaligned-access",
        FaultWhy::NotReadable => b"not-readable",
        FaultWhy::NotWritable => b"not-writable",
    }
}

/// Appends the line of a fault.
fn push_fault(text: &mut Vec<u8>, signal: u8, why: FaultWhy, at: u64) -> Result<(), AllocError>
    ensures { OnOk result (text.new.items ≡ text.old.items ++ spec.fault_line signal why at) }
{
    text.extend_from_slice(b"  fault")?;
    push_number(text, u64::from(signal))?;
    push_word(text, why_word(why))?;
    push_value(text, at)?;
    text.push(b'\n')?;
    Ok(())
}

/// Appends the line of requests that a hart took.
fn push_taken(text: &mut Vec<u8>, harts: u8, restart: bool) -> Result<(), AllocError>
    ensures { OnOk result (text.new.items ≡ text.old.items ++ spec.taken_line harts restart) }
{
    text.extend_from_slice(b"  taken")?;
    push_harts(text, harts)?;
    push_word(text, b"restart")?;
    push_yes_or_no(text, restart)?;
    text.push(b'\n')?;
    Ok(())
}

/// Appends the line of a barrier that a call began.
fn push_begins(text: &mut Vec<u8>, harts: u8) -> Result<(), AllocError>
    ensures { OnOk result (text.new.items ≡ text.old.items ++ spec.begins_line harts) }
{
    text.extend_from_slice(b"  barrier begins")?;
    push_harts(text, harts)?;
    text.push(b'\n')?;
    Ok(())
}

/// Appends a name behind a space, or where there is none a number.
fn push_name_or_number(text: &mut Vec<u8>, name: &[u8], number: u64) -> Result<(), AllocError>
    ensures { OnOk result (text.new.items
        ≡ text.old.items ++ space ∷ spec.name_or_number name.now number) }
{
    if name.is_empty() {
        push_number(text, number)
    } else {
        push_word(text, name)
    }
}

/// Appends arguments, each behind a space.
fn push_arguments(text: &mut Vec<u8>, arguments: &[u64]) -> Result<(), AllocError>
    ensures { OnOk result (text.new.items ≡ text.old.items ++ spec.arguments_text arguments.now) }
{
    for argument in arguments {
        push_value(text, *argument)?;
    }
    Ok(())
}

/// Appends the line of a system call.
fn push_call(text: &mut Vec<u8>, call: &SystemCall) -> Result<(), AllocError>
    ensures { OnOk result (text.new.items ≡ text.old.items ++ spec.call_line call.now) }
{
    let count = told_count(call.number, call.arguments[1]);
    text.extend_from_slice(b"  call")?;
    push_name_or_number(text, call_name(call.number), call.number)?;
    push_arguments(text, &call.arguments[..usize::from(count)])?;
    text.push(b'\n')?;
    Ok(())
}

/// Appends the line of an error number that a call gave.
fn push_error(text: &mut Vec<u8>, errno: u16) -> Result<(), AllocError>
    ensures { OnOk result (text.new.items ≡ text.old.items ++ spec.error_line errno) }
{
    text.extend_from_slice(b"  error")?;
    push_name_or_number(text, errno_name(errno), u64::from(errno))?;
    text.push(b'\n')?;
    Ok(())
}

/// Appends that a thread went on at another pc.
fn push_aborted(text: &mut Vec<u8>, from: u64, to: u64) -> Result<(), AllocError>
    ensures { OnOk result (text.new.items
        ≡ text.old.items ++ behind (spec.interruption_fields (Interruption.Aborted from to))) }
{
    push_named_value(text, b"aborted", from)?;
    push_value(text, to)
}

/// Appends that an interruption killed the process, and for which word.
fn push_killed(text: &mut Vec<u8>, why: BadWhy, wrong: WrongWord) -> Result<(), AllocError>
    ensures { OnOk result (text.new.items
        ≡ text.old.items ++ behind (spec.interruption_fields (Interruption.Killed why wrong))) }
{
    push_word(text, b"killed")?;
    push_word(text, bad_word(why))?;
    push_value(text, wrong.at)?;
    push_value_or_none(text, wrong.value)
}

/// Appends what an interruption came to.
fn push_interruption_fields(
    text: &mut Vec<u8>,
    interruption: Interruption,
) -> Result<(), AllocError>
    ensures { OnOk result (text.new.items ≡ text.old.items ++ behind (spec.interruption_fields interruption)) }
{
    match interruption {
        Interruption::Nothing => push_word(text, b"nothing"),
        Interruption::Cleared => push_word(text, b"cleared"),
        Interruption::Aborted { from, to } => push_aborted(text, from, to),
        Interruption::Killed { why, wrong } => push_killed(text, why, wrong),
    }
}

/// Appends the line of an interruption.
fn push_interruption(text: &mut Vec<u8>, interruption: Interruption) -> Result<(), AllocError>
    ensures { OnOk result (text.new.items ≡ text.old.items ++ spec.interruption_line interruption) }
{
    text.extend_from_slice(b"  interrupted")?;
    push_interruption_fields(text, interruption)?;
    text.push(b'\n')?;
    Ok(())
}

/// Appends the line of a signal that came to be pending for a thread, or isn't any more, with the word of that.
fn push_signal(text: &mut Vec<u8>, signal: u8, word: &[u8], tid: Tid) -> Result<(), AllocError>
    ensures { OnOk result (text.new.items ≡ text.old.items ++ spec.signal_line signal word.now tid.0) }
{
    text.extend_from_slice(b"  signal")?;
    push_number(text, u64::from(signal))?;
    push_named_number(text, word, u64::from(tid.0))?;
    text.push(b'\n')?;
    Ok(())
}

/// Appends the line of a signal whose handler was entered.
fn push_handler(text: &mut Vec<u8>, signal: u8, at: u64, frame: u64) -> Result<(), AllocError>
    ensures { OnOk result (text.new.items ≡ text.old.items ++ spec.handler_line signal at frame) }
{
    text.extend_from_slice(b"  signal")?;
    push_number(text, u64::from(signal))?;
    push_word(text, b"delivered")?;
    push_named_value(text, b"handler", at)?;
    push_named_value(text, b"frame", frame)?;
    text.push(b'\n')?;
    Ok(())
}

/// Appends the line of a signal whose delivery ended the process.
fn push_kills(text: &mut Vec<u8>, signal: u8) -> Result<(), AllocError>
    ensures { OnOk result (text.new.items ≡ text.old.items ++ spec.kills_line signal) }
{
    text.extend_from_slice(b"  signal")?;
    push_number(text, u64::from(signal))?;
    push_word(text, b"delivered")?;
    push_word(text, b"kills")?;
    text.push(b'\n')?;
    Ok(())
}

/// Appends what became of a thread.
fn push_change_fields(text: &mut Vec<u8>, change: ThreadChange) -> Result<(), AllocError>
    ensures { OnOk result (text.new.items ≡ text.old.items ++ behind (spec.change_fields change)) }
{
    match change {
        ThreadChange::Created => push_word(text, b"created"),
        ThreadChange::Ended => push_word(text, b"ended"),
        ThreadChange::Runs => push_word(text, b"runs"),
        ThreadChange::MadeReady => push_word(text, b"ready"),
        ThreadChange::Sleeps(at) => push_named_value(text, b"sleeps", at),
        ThreadChange::Woken => push_word(text, b"woken"),
    }
}

/// Appends the line of a thread that was created, ended, or came into another state.
fn push_thread(text: &mut Vec<u8>, tid: Tid, change: ThreadChange) -> Result<(), AllocError>
    ensures { OnOk result (text.new.items ≡ text.old.items ++ spec.thread_line tid.0 change) }
{
    text.extend_from_slice(b"  thread")?;
    push_number(text, u64::from(tid.0))?;
    push_change_fields(text, change)?;
    text.push(b'\n')?;
    Ok(())
}

/// Appends the line of a register of another thread.
fn push_thread_register(
    text: &mut Vec<u8>,
    tid: Tid,
    number: u8,
    value: u64,
) -> Result<(), AllocError>
    ensures { OnOk result (text.new.items
        ≡ text.old.items ++ spec.thread_register_line tid.0 number value) }
{
    let mut line = LineEnd::newline();
    line.put_value(value);
    put_register(&mut line, number);
    line.put_number(u64::from(tid.0));
    line.put(b"  thread");
    line.append_to(text)
}

/// The name of a field of an area (uapi linux/rseq.h).
fn field_word(field: AreaField) -> &'static [u8]
    ensures { result.now ≡ spec.field_word field }
{
    match field {
        AreaField::CpuIdStart => b"cpu_id_start",
        AreaField::CpuId => b"cpu_id",
        AreaField::RseqCs => b"rseq_cs",
        AreaField::Flags => b"flags",
        AreaField::NodeId => b"node_id",
        AreaField::MmCid => b"mm_cid",
    }
}

/// Appends the line of a word of an area.
fn push_area(text: &mut Vec<u8>, field: AreaField, value: u64) -> Result<(), AllocError>
    ensures { OnOk result (text.new.items ≡ text.old.items ++ spec.area_line field value) }
{
    text.extend_from_slice(b"  area")?;
    push_named_value(text, field_word(field), value)?;
    text.push(b'\n')?;
    Ok(())
}

/// The word of why an event ended its process by a signal.
fn kill_word(why: KillWhy) -> &'static [u8]
    ensures { result.now ≡ spec.kill_word why }
{
    match why {
        KillWhy::Bad(why) => bad_word(why),
        KillWhy::AreaWords => b"area-words",
        KillWhy::NoHandler => b"no-handler",
        KillWhy::Masked => b"masked",
        KillWhy::FrameNotWritable => b"frame-not-writable",
        KillWhy::FrameNotReadable => b"frame-not-readable",
        KillWhy::CallInside => b"call-inside",
    }
}

/// Appends the line of why an event ended its process by a signal.
#[inline(never)]
fn push_kill(text: &mut Vec<u8>, why: KillWhy) -> Result<(), AllocError>
    ensures { OnOk result (text.new.items ≡ text.old.items ++ spec.killed_line why) }
{
    text.extend_from_slice(b"  killed")?;
    push_word(text, kill_word(why))?;
    text.push(b'\n')?;
    Ok(())
}

/// Appends the line of a fact.
fn push_fact(text: &mut Vec<u8>, fact: &Fact) -> Result<(), AllocError>
    ensures { OnOk result (text.new.items ≡ text.old.items ++ spec.fact_line fact.now) }
{
    match *fact {
        Fact::Read {
            at,
            size,
            value,
            source,
        } => push_read(text, at, size, value, source),
        Fact::Waits(store) => push_waits(text, store),
        Fact::Entered { store, old, line } => push_wrote(text, store, old, line),
        Fact::KernelWrote { store, line } => push_kernel_wrote(text, store, line),
        Fact::Zeroed { at, length } => push_zeroed(text, at, length),
        Fact::Reserved { at } => push_address(text, b"  reserved", at),
        Fact::Used { at } => push_address(text, b"  used", at),
        Fact::Failed { at } => push_address(text, b"  failed", at),
        Fact::Ended { at } => push_address(text, b"  ended", at),
        Fact::Lost { hart, at, by } => push_lost(text, hart, at, by),
        Fact::Register { number, value } => push_changed(text, number, value),
        Fact::Faulted { signal, why, at } => push_fault(text, signal, why, at),
        Fact::RequestsTaken { harts, restart } => push_taken(text, harts, restart),
        Fact::BarrierReturns => text.extend_from_slice(b"  barrier returns\n"),
        Fact::Called(call) => push_call(text, &call),
        Fact::Answered { value } => push_address(text, b"  answer", value),
        Fact::Refused { errno } => push_error(text, errno),
        Fact::AnsweredLater => text.extend_from_slice(b"  answer later\n"),
        Fact::BarrierBegins { harts } => push_begins(text, harts),
        Fact::Interrupted(interruption) => push_interruption(text, interruption),
        Fact::HandlerEntered { signal, at, frame } => push_handler(text, signal, at, frame),
        Fact::DeliveryKills { signal } => push_kills(text, signal),
        Fact::SignalPosted { signal, tid } => push_signal(text, signal, b"posted", tid),
        Fact::SignalDropped { signal, tid } => push_signal(text, signal, b"dropped", tid),
        Fact::ThreadChanged { tid, change } => push_thread(text, tid, change),
        Fact::ThreadRegister { tid, number, value } => {
            push_thread_register(text, tid, number, value)
        }
        Fact::AreaWord { field, value } => push_area(text, field, value),
        Fact::NoAnswer => text.extend_from_slice(b"  no answer\n"),
        Fact::Killed(why) => push_kill(text, why),
    }
}

/// Appends the lines of facts, in order.
#[tactic(auto, unfolding(crate::specs::Lines::facts_text))]
pub fn push_facts(text: &mut Vec<u8>, facts: &[Fact]) -> Result<(), AllocError>
    ensures { OnOk result (text.new.items ≡ text.old.items ++ spec.facts_text facts.now) }
{
    for fact in facts {
        push_fact(text, fact)?;
    }
    Ok(())
}
