//! Tests of `step_log`: lines of the log, printed and read.

use arrayvec::ArrayVec;
use mach_types::{Choice, Entry, Hart, Kind, Tid};
use std::process::Abort;
use step_log::{BadLine, Line, LineReader, print_entry};

fn prints(rt: &impl Abort, entry: &Entry, text: &[u8]) {
    if entry.hart.0 < 8 {
        let mut line = ArrayVec::new();
        print_entry(entry, &mut line);
        assert!(rt; line.as_slice() == text, "{text:?}");
    } else {
        panic!(rt; "no hart digit");
    }
}

fn says(rt: &impl Abort, text: &[u8], line: &Line) {
    let mut reader = LineReader::new(text);
    assert!(rt; reader.next_line() == Ok(Some(*line)), "{text:?}");
    assert!(rt; reader.next_line() == Ok(None), "{text:?}");
}

fn refuses(rt: &impl Abort, text: &[u8]) {
    let mut reader = LineReader::new(text);
    assert!(rt; reader.next_line() == Err(BadLine(1)), "{text:?}");
    assert!(rt; reader.next_line() == Err(BadLine(1)), "{text:?}");
}

/// An entry.
macro_rules! entry {
    ($hart:expr, $kind:ident, $tid:expr, $pc:expr) => {
        Entry { hart: Hart($hart), kind: Kind::$kind, tid: Tid($tid), pc: $pc }
    };
}

/// A line without a check, and one with the thread and the pc that are checked.
macro_rules! line {
    ($hart:expr, $choice:expr) => {
        Line { hart: Hart($hart), choice: $choice, check: None }
    };
    ($hart:expr, $choice:expr, $tid:expr, $pc:expr) => {
        Line { hart: Hart($hart), choice: $choice, check: Some((Tid($tid), $pc)) }
    };
}

/// Entries, and the lines that are due for them.
const PRINTED: [(Entry, &[u8]); 7] = [
    (entry!(0, Run, 1, 0x10078), b"0 run 1 0000000000010078\n"),
    (entry!(0, Exec, 1, 0x1007c), b"0 exec 1 000000000001007c\n"),
    (entry!(1, Take, 0, 0), b"1 take 0 0000000000000000\n"),
    (entry!(2, Drain, 10, 9), b"2 drain 10 0000000000000009\n"),
    (
        entry!(3, Done, 99, 0xabcdef),
        b"3 done 99 0000000000abcdef\n",
    ),
    (
        entry!(6, Signal, 100, 0x0123_4567_89ab_cdef),
        b"6 signal 100 0123456789abcdef\n",
    ),
    (
        entry!(7, Preempt, u32::MAX, u64::MAX),
        b"7 preempt 4294967295 ffffffffffffffff\n",
    ),
];

#[test]
fn entries_are_printed(rt: HostRuntime) {
    for (entry, text) in &PRINTED {
        prints(&rt, entry, text);
    }
}

/// Lines of each form, and what they say.
const READ: [(&[u8], Line); 11] = [
    (b"0 exec", line!(0, Choice::Exec)),
    (b"1 drain\n", line!(1, Choice::Drain)),
    (b"2 take", line!(2, Choice::Take)),
    (b"3 done", line!(3, Choice::Done)),
    (b"4 preempt", line!(4, Choice::Preempt)),
    (b"7 signal", line!(7, Choice::Signal)),
    (b"0 run 1", line!(0, Choice::Run(Tid(1)))),
    (b"0 run 0\n", line!(0, Choice::Run(Tid(0)))),
    (b"0 run 4294967295", line!(0, Choice::Run(Tid(u32::MAX)))),
    (
        b"5 run 12 ffffffffffffffff",
        line!(5, Choice::Run(Tid(12)), 12, u64::MAX),
    ),
    (b"5 exec 0 0000000000000000\n", line!(5, Choice::Exec, 0, 0)),
];

#[test]
fn each_form_is_read(rt: HostRuntime) {
    for (text, line) in &READ {
        says(&rt, text, line);
    }
}

/// Lines that say nothing.
const MALFORMED: [&[u8]; 37] = [
    b"0 run",
    b"8 run 1",
    b"9 exec",
    b"00 exec",
    b"/ exec",
    b"0 run 01",
    b"0 run 00",
    b"0 run 4294967296",
    b"0 run 18446744073709551617",
    b"0 run +1",
    b"0 run -1",
    b"0 run 1a",
    b"0 run \n",
    b"0  run 1",
    b"0 run  1",
    b" 0 run 1",
    b"0 run 1 ",
    b"0 exec ",
    b"0\texec",
    b"0 exec\r\n",
    b"\n",
    b"\n0 exec",
    b"\xff",
    b"0",
    b"exec",
    b"0 Run 1",
    b"0 execute",
    b"0 exe",
    b"0 exec 1",
    b"0 run 1 000000000001007A",
    b"0 run 1 000000000001007",
    b"0 run 1 00000000000010078",
    b"0 run 1 000000000001007g",
    b"0 run 1 0x00000000010078",
    b"0 run 1 0000000000010078 ",
    b"0 run 1 0000000000010078 0",
    b"0 exec 01 0000000000010078",
];

#[test]
fn malformed_lines_are_refused(rt: HostRuntime) {
    for text in &MALFORMED {
        refuses(&rt, text);
    }
}

#[test]
fn lines_are_counted(rt: HostRuntime) {
    let mut reader = LineReader::new(b"0 run 1\n0 exec\n0 exec 1\n0 drain");
    assert!(rt; reader.next_line() == Ok(Some(line!(0, Choice::Run(Tid(1))))));
    assert!(rt; reader.next_line() == Ok(Some(line!(0, Choice::Exec))));
    assert!(rt; reader.next_line() == Err(BadLine(3)));
    assert!(rt; reader.next_line() == Err(BadLine(3)));
}
