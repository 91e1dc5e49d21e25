//! Writing an answer: an output, or the line of a fault.

ghost use Rattle.std.specs.Prelude.{◌≡◌, IfErr, IsSome, None, Some, option_map};
ghost use Rattle.outside.specs.Counts.{NeverFalls};
ghost use Rattle.outcomes.specs.Answers.{IsToldFor};
ghost use Rattle.outcomes.specs.Delivery.{IsAsDue, IsDelivered, due_for};
ghost use Rattle.outcomes.specs.Judged.{output_status};
ghost use Rattle.call_reasons.specs.Reasons.{fault_told, reason_status};
ghost use Rattle.call_reasons.specs.declared.reasons.Reason.TheVariants.{EndedOtherwise, Unwritten};

use call_reasons::{Explained, OtherEnd, Reason};
use outcomes::Judged;
use outside::{Sink, emit};
use run_texts::Output;

/// The exit status of a call that wrote its output.
const DONE: u8 = 0;

/// Writes the output, or the line of the fault that a reason stands for, and explains how the call ended.
pub fn tell<K: Sink>(sink: &mut K, answer: Result<Judged, Reason>) -> Explained
    requires { IfErr answer (λ reason. IsSome (fault_told reason)) }
    ensures told { IsToldFor (K.held sink.old) (K.held sink.new) (K.faults sink.old) (K.faults sink.new)
        answer result.status }
    ensures explained { IsAsDue (K.faults sink.old) (K.faults sink.new) (K.last_trouble sink.new)
        (due_for answer) result }
    ensures counts { NeverFalls (K.faults sink.old) (K.faults sink.new) }
{
    match answer {
        Ok((output, other)) => deliver(sink, output, written(other)),
        Err(reason) => {
            let Some(fault) = reason.fault() else {
                unreachable!()
            };
            deliver_line(sink, fault.line().as_str().as_bytes(), told(reason))
        }
    }
}

/// Writes an output, and gives what is due, or the status and the reason of a failed sink.
fn deliver<K: Sink>(sink: &mut K, mut output: Output, due: Explained) -> Explained
    ensures delivered { IsDelivered (K.held sink.old) (K.held sink.new) (K.faults sink.old)
        (K.faults sink.new) output due.status result.status }
    ensures explained { IsAsDue (K.faults sink.old) (K.faults sink.new) (K.last_trouble sink.new) due result }
    ensures counts { NeverFalls (K.faults sink.old) (K.faults sink.new) }
{
    match output.write(sink) {
        Ok(()) => due,
        Err(_) => unwritten(sink, due),
    }
}

/// Writes a line, and gives what is due, or the status and the reason of a failed sink.
fn deliver_line<K: Sink>(sink: &mut K, line: &[u8], due: Explained) -> Explained
    ensures delivered { IsDelivered (K.held sink.old) (K.held sink.new) (K.faults sink.old)
        (K.faults sink.new) line.now due.status result.status }
    ensures explained { IsAsDue (K.faults sink.old) (K.faults sink.new) (K.last_trouble sink.new) due result }
    ensures counts { NeverFalls (K.faults sink.old) (K.faults sink.new) }
{
    match emit(sink, line) {
        Ok(()) => due,
        Err(_) => unwritten(sink, due),
    }
}

/// How a call ends whose sink failed, where this was due.
fn unwritten<K: Sink>(sink: &K, due: Explained) -> Explained
    ensures { result ≡ record {
      status = 6;
      reason = Some (Unwritten (K.last_trouble sink.now));
      untold = due.reason;
    } }
{
    let reason = Reason::Unwritten {
        trouble: sink.trouble(),
    };
    Explained {
        status: reason.status(),
        reason: Some(reason),
        untold: due.reason,
    }
}

/// How a call ends whose output was written, where this ended otherwise than was expected.
fn written(other: Option<OtherEnd>) -> Explained
    ensures { result ≡ record {
      status = output_status other;
      reason = option_map EndedOtherwise other;
      untold = None;
    } }
{
    match other {
        Some(other) => told(Reason::EndedOtherwise(other)),
        None => Explained {
            status: DONE,
            reason: None,
            untold: None,
        },
    }
}

/// A call with this reason and its status.
fn told(reason: Reason) -> Explained
    ensures { result ≡ record { status = reason_status reason; reason = Some reason; untold = None } }
{
    Explained {
        status: reason.status(),
        reason: Some(reason),
        untold: None,
    }
}
