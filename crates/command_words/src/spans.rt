//! Spans of memory that a word asks for.

ghost use Rattle.std.specs.Prelude.{◌≡◌, ◌+◌, ◌≤◌, ◌^◌, map, All, IfOk};
ghost use Rattle.std.specs.List.{list_all};
ghost use Rattle.step_log.specs.Script.{is_hex_digit};
ghost use Rattle.command_words.specs.Kept.{spans_kept};
ghost use Rattle.command_words.specs.Spans.{address_of, are_spans, parts_of, span_from, span_of, spans_in, spans_of};

use crate::options::Numbers;
use std::alloc::{AllocError, Global};

/// Some bytes of memory, one behind the other. The last of them is the last address, or before it.
#[derive(Clone, Copy, Drop)]
pub struct MemorySpan {
    /// The address of the first.
    pub at: u64,
    /// How many they are, 1 to 65,536.
    pub length: u32,
}

/// The spans of memory that a command asks for.
#[derive(Clone, Copy, Drop)]
pub struct MemorySpans<'a> {
    /// The text that writes them, one comma apart; None where none are asked for.
    pub(crate) text: Option<&'a str>,
}

/// How many bytes a span may have.
const LENGTHS: Numbers = Numbers {
    least: 1,
    most: 65_536,
};

/// Whether a text is made of hexadecimal digits in lower case.
fn is_hexadecimal(text: &str) -> bool
    ensures { result ≡ list_all is_hex_digit text.now }
{
    text.as_bytes()
        .iter()
        .all(|byte| matches!(byte, b'0'..=b'9' | b'a'..=b'f'))
}

/// The address that a text writes: 1 to 16 hexadecimal digits in lower case. None where it writes none.
fn address_of(text: &str) -> Option<u64>
    ensures { result ≡ address_of text.now }
{
    if !text.is_empty() && text.len() <= 16 && is_hexadecimal(text) {
        u64::from_str_radix(text, 16).ok()
    } else {
        None
    }
}

impl MemorySpan {
    /// So many bytes from an address on; None where they would go past the end of addresses.
    fn from_address(at: u64, count: u64) -> Option<MemorySpan>
        requires least { 1 ≤ count }
        requires most { count ≤ 65536 }
        ensures { result ≡ span_from at count }
    {
        if at <= u64::MAX - (count - 1) {
            Some(MemorySpan {
                at,
                length: count as u32,
            })
        } else {
            None
        }
    }

    /// The span that a text writes as `AT:LENGTH`; None where it writes none.
    fn of_text(text: &str) -> Option<MemorySpan>
        ensures { result ≡ span_of text.now }
    {
        let (at, behind) = text.split_once(':')?;
        let at = address_of(at)?;
        let count = LENGTHS.number_in(behind)?;
        MemorySpan::from_address(at, count)
    }
}

/// Whether a text writes spans, one comma apart.
pub(crate) fn are_spans(text: &str) -> bool
    ensures { result ≡ are_spans text.now }
{
    text.split(',')
        .all(|part| MemorySpan::of_text(part).is_some())
}

/// What stands between the commas of a text.
fn parts_of<'a>(alloc: Global, text: &'a str) -> Result<Vec<&'a str>, AllocError>
    ensures { IfOk result (λ parts. map (λ part. part.now) parts.items ≡ parts_of text.entry.now) }
{
    text.split(',').collect(alloc)
}

/// The spans that these texts write, in their order; nothing of one that writes none.
fn spans_of(alloc: Global, parts: &[&str]) -> Result<Vec<MemorySpan>, AllocError>
    ensures { IfOk result (λ spans. spans.items ≡ spans_of (map (λ part. part.now) parts.now)) }
{
    let mut spans = Vec::new(alloc);
    for part in parts {
        if let Some(span) = MemorySpan::of_text(part) {
            spans.push(span)?;
        }
    }
    Ok(spans)
}

/// The spans that a text writes, in their order.
fn spans_in(alloc: Global, text: &str) -> Result<Vec<MemorySpan>, AllocError>
    ensures { IfOk result (λ spans. spans.items ≡ spans_in text.now) }
{
    let parts = parts_of(alloc, text)?;
    spans_of(alloc, &parts)
}

impl MemorySpans<'_> {
    /// The spans, in their order.
    pub fn to_vec(&self, alloc: Global) -> Result<Vec<MemorySpan>, AllocError>
        ensures spans { IfOk result (λ spans. spans.items ≡ spans_kept self.now) }
        ensures end { IfOk result (λ spans. All (λ span. span.at + span.length ≤ 2 ^ 64) spans.items) }
    {
        match self.text {
            Some(text) => spans_in(alloc, text),
            None => Ok(Vec::new(alloc)),
        }
    }
}
