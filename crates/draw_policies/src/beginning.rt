//! Which thread begins to run on an idle hart.

ghost use Rattle.std.specs.Prelude.{◌≡◌, ◌<◌};
ghost use Rattle.draw_policies.specs.Beginning as beginning;

use crate::words::Word;
use mach_types::Tid;

/// Where a thread stands among these.
fn place_of(threads: &[u32], tid: Tid) -> Option<usize>
    ensures { result ≡ beginning.place_of threads.now tid }
{
    threads.iter().position(|number| *number == tid.0)
}

/// Where among these threads the one stands that is left out: the last that ran on the hart, if there are
/// others.
fn left_out(threads: &[u32], last: Option<Tid>) -> Option<usize>
    ensures { result ≡ beginning.left_out threads.now last }
{
    if threads.len() > 1 {
        match last {
            Some(tid) => place_of(threads, tid),
            None => None,
        }
    } else {
        None
    }
}

/// How many there are without it.
fn others(threads: &[u32], out: Option<usize>) -> usize
    ensures { result ≡ beginning.others threads.now out }
{
    match out {
        None => threads.len(),
        Some(_) => threads.len().saturating_sub(1),
    }
}

/// The place of the so-manyth of them.
fn place_of_other(out: Option<usize>, place: usize) -> usize
    requires { place < usize.MAX }
    ensures { result ≡ beginning.place_of_other out place }
{
    match out {
        None => place,
        Some(first) if place < first => place,
        Some(_) => place + 1,
    }
}

/// The thread that a word lets run on an idle hart, of these that may; None exactly where there is none.
///
/// Each is as likely as the next, but the one that ran there last doesn't come where there are others.
pub(crate) fn thread_to_run(threads: &[u32], last: Option<Tid>, word: Word) -> Option<Tid>
    ensures { result ≡ beginning.thread_to_run threads.now last word.0 }
{
    let out = left_out(threads, last);
    let place = place_of_other(out, word.thread_place(others(threads, out)));
    match threads.get(place).copied() {
        None => None,
        Some(number) => Some(Tid(number)),
    }
}
