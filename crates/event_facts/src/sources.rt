//! Where bytes come from: of a line, and whether two are the same.

ghost use Rattle.std.specs.Prelude.{◌≡◌, ◌&&◌};
ghost use Rattle.event_facts.specs.Lines as spec;
ghost use Rattle.event_facts.specs.Sources.{same_source};

use fact_types::Source;

/// Where a byte of memory comes from that was written last in a line; in none since the start where that
/// is 0.
pub(crate) fn memory_source(line: u32) -> Source
    ensures { result ≡ spec.memory_source line }
{
    if line == 0 {
        Source::Start
    } else {
        Source::Memory(line)
    }
}

/// Whether two are the same.
fn is_same(source: Source, other: Source) -> bool
    ensures { result ≡ same_source source other }
{
    match (source, other) {
        (Source::Start, Source::Start) => true,
        (Source::Memory(one), Source::Memory(two)) => one == two,
        (Source::Waiting(one), Source::Waiting(two)) => one == two,
        _ => false,
    }
}

/// Whether a test holds, and two are the same.
pub(crate) fn is_same_if(test: bool, source: Source, other: Source) -> bool
    ensures { result ≡ (test && same_source source other) }
{
    test && is_same(source, other)
}
