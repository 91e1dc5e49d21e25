//! Deciles of what was counted.

ghost use Rattle.std.specs.Prelude.{◌≡◌, ◌*◌, ◌<◌, ◌≤◌, ◌^◌, length, sum};
ghost use Rattle.explored_runs.specs.Deciles.{decile, number_at};

/// Of how many tenths there is a decile: the least number is that of none, and the greatest that of all.
pub(crate) const TENTHS: [u8; 11] = [0, 1, 2, 3, 4, 5, 6, 7, 8, 9, 10];

/// How many numbers are in a list that is told by how often each number from 0 on is in it.
pub(crate) fn total_of(counts: &[u64]) -> u128
    requires { length counts.now ≤ 256 }
    ensures is { result ≡ sum counts.now }
    ensures few { result ≤ 256 * 2 ^ 64 }
{
    let mut total = 0;
    for count in counts {
        total += u128::from(*count);
    }
    total
}

/// The decile of so many tenths, where there are so many numbers.
pub(crate) fn decile(counts: &[u64], total: u128, tenths: u8) -> u64
    requires total { total ≡ sum counts.now }
    requires few { total ≤ 256 * 2 ^ 64 }
    requires some { 0 < total }
    requires tenths { tenths ≤ 10 }
    ensures { result ≡ decile counts.now tenths }
{
    number_at(counts, (total - 1) * u128::from(tenths) / 10)
}

/// The number at a place of a sorted list, from 0 on, where the counts say how often each number from 0 on is in it.
fn number_at(counts: &[u64], place: u128) -> u64
    requires { place < sum counts.now }
    ensures { result ≡ number_at 0 place counts.now }
{
    let mut left = place;
    for (number, count) in counts.iter().enumerate() {
        let count = u128::from(*count);
        if left < count {
            return number as u64;
        }
        left -= count;
    }
    counts.len() as u64
}
