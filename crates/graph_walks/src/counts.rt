//! The nodes that aren't marked.

ghost use Rattle.std.specs.Prelude.{◌≡◌, ◌<◌, ◌^◌, not, length, count_by, position};

/// How many nodes aren't marked.
pub fn count_unmarked(marks: &[bool]) -> u32
    requires { length marks.now < 2 ^ 32 }
    ensures { result ≡ count_by not marks.now }
{
    marks.iter().filter(|marked| !**marked).count() as u32
}

/// The first node that isn't marked.
pub fn first_unmarked(marks: &[bool]) -> Option<usize>
    ensures { result ≡ position not marks.now }
{
    marks.iter().position(|marked| !*marked)
}
