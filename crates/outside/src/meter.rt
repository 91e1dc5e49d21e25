//! What standard error says while a call takes long.

use crate::progress::Progress;
use std::cell::Cell;
use std::time::{Clock, Instant};

/// How long the line of progress stands at least before it is written again, in milliseconds.
const STANDS: u128 = 100;

/// From when on a call takes long, in milliseconds.
const LONG: u128 = 1_000;

/// What is written over the line, as long as the longest one.
const CLEARED: &str = "\r                                                        \r";

/// What standard error says of an exploration or a search for a person who waits for it.
///
/// At a terminal that is a line that says how many runs are made or places visited, and how many outcomes were found. It is written ten
/// times a second at most, and for the first time a tenth of a second after it was first asked for. Terminal or not, other lines may be
/// said. Where nothing can be written, nobody is told.
#[derive(Drop)]
pub struct Meter<R: Eprint + Clock> {
    rt: R,
    /// Whether standard error is a terminal: else the line of progress is never written.
    is_watched: bool,
    /// When it was first asked for.
    first: Cell<Option<Instant>>,
    /// When it was written last, or first asked for.
    last: Cell<Option<Instant>>,
    /// Whether it stands there.
    is_shown: Cell<bool>,
}

impl<R: Eprint + Clock> Meter<R> {
    /// A meter that has said nothing yet. Whether it ever shows progress says `is_watched`: whether standard error is a terminal.
    pub fn new(rt: R, is_watched: bool) -> Meter<R> {
        Meter {
            rt,
            is_watched,
            first: Cell::new(None),
            last: Cell::new(None),
            is_shown: Cell::new(false),
        }
    }

    /// Shows how far a call is, where it is time, and answers whether it takes long. Where the clock can't be read, it is never time,
    /// and nothing takes long.
    pub(crate) fn show(&self, progress: &Progress) -> bool {
        let Ok(now) = Instant::now(&self.rt) else {
            return false;
        };
        if self.is_watched && self.is_due(now) {
            self.write(progress);
        }
        self.takes_long(now)
    }

    /// Writes a line that stays, in place of the line of progress, which comes below it when it is time again.
    pub fn say(&self, line: &str) {
        self.clear();
        let _ = self.rt.eprint(line);
    }

    /// Takes the line of progress away, where it stands.
    pub fn clear(&self) {
        if self.is_shown.replace(false) {
            let _ = self.rt.eprint(CLEARED);
        }
    }

    /// Writes the line of progress, in place of the one that stands there: that may be longer.
    fn write(&self, progress: &Progress) {
        let Progress {
            counted,
            made,
            all,
            outcomes,
        } = *progress;
        let counted = counted.word();
        let plural = if outcomes == 1 { "" } else { "s" };
        self.clear();
        let _ = eprint!(self.rt;
            "\rrseq_run: {made} of {all} {counted}, {outcomes} outcome{plural}"
        );
        self.is_shown.set(true);
    }

    /// Whether it is time to write the line.
    fn is_due(&self, now: Instant) -> bool {
        let last = self.last.get();
        if let Some(last) = last
            && now.duration_since(last).as_millis() < STANDS
        {
            return false;
        }
        self.last.set(Some(now));
        last.is_some()
    }

    /// Whether the call takes long by now.
    fn takes_long(&self, now: Instant) -> bool {
        match self.first.get() {
            Some(first) => now.duration_since(first).as_millis() >= LONG,
            None => {
                self.first.set(Some(now));
                false
            }
        }
    }
}
