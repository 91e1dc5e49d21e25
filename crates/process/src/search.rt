//! A search among rising numbers.

ghost use Rattle.std.specs.Prelude.{◌≡◌, ◌==◌, Some, IfSome, position};
ghost use Rattle.std.specs.List.Sorted.{IsStrictlyIncreasing};

/// Where a number stands among rising numbers. Where they have no gap before it, that is as far behind the first as the numbers
/// differ, and nothing is searched.
pub fn place_of(numbers: &[u64], number: u64) -> Option<usize>
    requires { IsStrictlyIncreasing numbers.now }
    ensures { result ≡ position (λ m. m == number) numbers.now }
{
    match place_without_gaps(numbers, number) {
        Some(place) => Some(place),
        None => searched(numbers, number),
    }
}

/// The place as far behind the first as the numbers differ, where this number stands there.
fn place_without_gaps(numbers: &[u64], number: u64) -> Option<usize>
    requires { IsStrictlyIncreasing numbers.now }
    ensures { IfSome result (λ place. position (λ m. m == number) numbers.now ≡ Some place) }
{
    let place = number.wrapping_sub(*numbers.first()?) as usize;
    if place < numbers.len() && numbers[place] == number {
        Some(place)
    } else {
        None
    }
}

/// The same, by a search.
fn searched(numbers: &[u64], number: u64) -> Option<usize>
    requires { IsStrictlyIncreasing numbers.now }
    ensures { result ≡ position (λ m. m == number) numbers.now }
{
    match numbers.binary_search(&number) {
        Ok(index) => Some(index),
        Err(_) => None,
    }
}
