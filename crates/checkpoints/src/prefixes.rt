//! Where two logs part.

ghost use Rattle.std.specs.Prelude.{◌≡◌, ◌≤◌, length, take};
ghost use Rattle.std.specs.Bool.{OnTrue};

use mach_types::Entry;

/// Whether two entries are the same.
fn is_same(entry: Entry, other: Entry) -> bool
    ensures { OnTrue result (entry ≡ other) }
{
    entry == other
}

/// How many first entries two logs have in common.
pub(crate) fn common(log: &[Entry], other: &[Entry]) -> usize
    ensures same { take result log.now ≡ take result other.now }
    ensures log { result ≤ length log.now }
    ensures other { result ≤ length other.now }
{
    let mut count = 0;
    while count < log.len() && count < other.len() && is_same(log[count], other[count]) {
        count += 1;
    }
    count
}
