//! A sink that shows how far a call is, and says what it found.

use crate::faults::Failed;
use crate::meter::Meter;
use crate::progress::Progress;
use crate::traits::Sink;
use std::io::ErrorKind;
use std::time::Clock;

/// A sink with a meter, which shows the runs that are made until the first bytes are put, and says what they came to.
#[derive(Drop)]
pub struct MeteredSink<K: Sink, R: Eprint + Clock> {
    sink: K,
    meter: Meter<R>,
}

impl<K: Sink, R: Eprint + Clock> MeteredSink<K, R> {
    /// This sink with this meter.
    pub fn new(sink: K, meter: Meter<R>) -> MeteredSink<K, R> {
        MeteredSink { sink, meter }
    }
}

impl<K: Sink, R: Eprint + Clock> Sink for MeteredSink<K, R> {
    ghost held = { λ s. K.held s.sink };

    ghost faults = { λ s. K.faults s.sink };

    ghost last_trouble = { λ s. K.last_trouble s.sink };

    fn put(&mut self, piece: &[u8]) -> Result<usize, Failed> {
        self.meter.clear();
        self.sink.put(piece)
    }

    fn trouble(&self) -> Option<ErrorKind> {
        self.sink.trouble()
    }

    fn show_progress(&self, progress: &Progress) -> bool {
        self.meter.show(progress)
    }

    fn say(&self, line: &str) {
        self.meter.say(line);
    }
}
