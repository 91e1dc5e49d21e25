//! An event of one of two processes: why it isn't made, and what it leaves of both and of the segment.

ghost use Rattle.std.specs.Prelude.{◌≡◌, ◌≢◌, ◌<◌, ℕ, Bool, Option, Some, None, IfSome, false};
ghost use Rattle.rv_inst.specs.Class.{is_call};
ghost use Rattle.rv_inst.specs.Sizes.{HasAccessSizes};
ghost use Rattle.block_model.specs.Events.{refusal_of};
ghost use Rattle.process.specs.ExecGates.{IsNextAt};
ghost use Rattle.shared_procs.specs.PairPlaces.{AreAfter, HasActing, HasNext, HasStep, IsActing, IsMadeAt, IsPassedAt, IsPerformedAt, IsSteppedAt, MayAct, MayPass, is_take};
ghost use Rattle.shared_procs.specs.Pairs.{Pair, PairSetting, here_two};

use crate::ending::close;
use crate::entering::{enter, tell, unseen};
use crate::half::Half;
use crate::pair_calls::call;
use crate::segment::Segment;
use crate::window::Window;
use mach_types::{Choice, Hart, Why};
use process::{Next, Parts, next_of};
use rv_inst::Effect;
use sys_calls::{CallEnd, PageSpan};

/// The pages of the segment.
const SEGMENT_PAGES: PageSpan = PageSpan {
    first: 0x3_FFFF80,
    count: 16,
};

/// The next instruction of the thread on a hart, with its fault. Nothing changes.
fn next_instruction(mine: &mut Half, segment: &mut Segment, hart: Hart) -> Next
    requires { HasActing hart.0 mine.old segment.old }
    ensures next { (s : PairSetting) (m : Pair) (p : Bool) → IsActing s m p hart.0 mine.old segment.old
        → IsNextAt (here_two s m p hart.0) result }
    ensures sizes { IfSome result.effect HasAccessSizes }
    ensures mine { mine.new ≡ mine.old }
    ensures segment { segment.new ≡ segment.old }
{
    let state = &mine.parts.harts[hart.0 as usize];
    let window = Window {
        pages: &mut mine.parts.pages,
        segment,
    };
    next_of(&mine.code, &window, state)
}

/// The first condition of a choice of a process that fails; None exactly where it is allowed. Nothing changes.
pub fn refusal(mine: &mut Half, segment: &mut Segment, hart: Hart, choice: Choice) -> Option<Why>
    requires { HasActing hart.0 mine.old segment.old }
    ensures why { (s : PairSetting) (m : Pair) (p : Bool) → IsActing s m p hart.0 mine.old segment.old
        → result ≡ refusal_of choice (here_two s m p hart.0) }
    ensures mine { mine.new ≡ mine.old }
    ensures segment { segment.new ≡ segment.old }
{
    match choice {
        Choice::Exec => {
            let next = next_instruction(mine, segment, hart);
            mine.parts.exec_gate_beside(hart, &next, SEGMENT_PAGES)
        }
        _ => mine.parts.refusal_unless_exec(hart, choice),
    }
}

/// The oldest waiting store of a hart enters memory.
fn drain(mine: &mut Half, other: &mut Half, segment: &mut Segment, hart: Hart)
    requires { MayAct hart.0 Choice.Drain mine.old other.old segment.old }
    ensures { IsMadeAt hart.0 Choice.Drain mine.old other.old segment.old mine.new other.new segment.new }
{
    let state = &mut mine.parts.harts[hart.0 as usize];
    let oldest = state.buffer.pop();
    enter(&mut mine.parts.pages, segment, oldest);
    tell(&mut mine.parts, &mut other.parts, hart, oldest);
}

/// An instruction other than a call.
fn plain(mine: &mut Half, other: &mut Half, segment: &mut Segment, hart: Hart, effect: &Effect)
    requires next { HasNext hart.0 (record { effect = Some effect.now; fault = None }) mine.old other.old segment.old }
    requires no_call { is_call effect.now ≡ false }
    ensures { IsPerformedAt hart.0 (record { effect = Some effect.now; fault = None }) mine.old other.old segment.old
        mine.new other.new segment.new }
{
    let state = &mut mine.parts.harts[hart.0 as usize];
    let window = Window {
        pages: &mut mine.parts.pages,
        segment: &mut *segment,
    };
    let made = state.execute(&window, effect);
    state.ran += 1;
    enter(&mut mine.parts.pages, segment, made);
    tell(&mut mine.parts, &mut other.parts, hart, made);
}

/// A fault, which the other process doesn't see.
fn fault(mine: &mut Parts, other: &mut Parts, hart: Hart, effect: Option<Effect>, signal: u8)
    requires { HasStep hart.0 (record { effect = effect; fault = Some signal }) mine.old other.old }
    ensures { IsSteppedAt hart.0 (record { effect = effect; fault = Some signal }) mine.old other.old mine.new other.new }
{
    mine.fault(hart, effect, signal);
    unseen(other, hart);
}

/// This next instruction of the thread on a hart.
fn perform(mine: &mut Half, other: &mut Half, segment: &mut Segment, hart: Hart, next: Next)
    requires { HasNext hart.0 next mine.old other.old segment.old }
    ensures { IsPerformedAt hart.0 next mine.old other.old segment.old mine.new other.new segment.new }
{
    match (next.fault, next.effect) {
        (Some(signal), _) => fault(&mut mine.parts, &mut other.parts, hart, next.effect, signal),
        (None, Some(Effect::Call)) => call(&mut mine.parts, &mut other.parts, hart),
        (None, Some(effect)) => plain(mine, other, segment, hart, &effect),
        (None, None) => unreachable!(),
    }
}

/// The next instruction of the thread on a hart.
fn execute(mine: &mut Half, other: &mut Half, segment: &mut Segment, hart: Hart)
    requires { MayAct hart.0 Choice.Exec mine.old other.old segment.old }
    ensures { IsMadeAt hart.0 Choice.Exec mine.old other.old segment.old mine.new other.new segment.new }
{
    let next = next_instruction(mine, segment, hart);
    perform(mine, other, segment, hart, next);
}

/// Whether a choice is a `take`.
fn takes(choice: Choice) -> bool
    ensures { result ≡ is_take choice }
{
    matches!(choice, Choice::Take)
}

/// An event that is neither an instruction nor a drain: the other process sees nothing of it but that a hart took its requests.
fn pass(mine: &mut Parts, other: &mut Parts, hart: Hart, choice: Choice)
    requires may { MayPass hart.0 choice mine.old other.old }
    requires no_exec { choice ≢ Choice.Exec }
    requires no_drain { choice ≢ Choice.Drain }
    ensures { IsPassedAt hart.0 choice mine.old other.old mine.new other.new }
{
    mine.pages.keeps();
    mine.event(hart, choice);
    other.pass_by(hart, takes(choice), CallEnd::Resume, &[]);
}

/// The event of a choice of a process that is allowed, but for its count, and for what waits where it ends the process.
fn made(mine: &mut Half, other: &mut Half, segment: &mut Segment, hart: Hart, choice: Choice)
    requires { MayAct hart.0 choice mine.old other.old segment.old }
    ensures { IsMadeAt hart.0 choice mine.old other.old segment.old mine.new other.new segment.new }
{
    match choice {
        Choice::Exec => execute(mine, other, segment, hart),
        Choice::Drain => drain(mine, other, segment, hart),
        _ => pass(&mut mine.parts, &mut other.parts, hart, choice),
    }
}

/// The event of a choice of a process that is allowed: both processes and the segment are then as after it, and the event is counted.
pub fn make(mine: &mut Half, other: &mut Half, segment: &mut Segment, hart: Hart, choice: Choice)
    requires { MayAct hart.0 choice mine.old other.old segment.old }
    ensures after { AreAfter hart.0 choice mine.old other.old segment.old mine.new other.new segment.new }
    ensures mine { mine.new ≡ record mine.old { parts = mine.new.parts } }
    ensures other { other.new ≡ record other.old { parts = other.new.parts } }
{
    made(mine, other, segment, hart, choice);
    mine.parts.count(hart);
    close(&mut mine.parts, &mut other.parts, segment);
}
