//! Tests of `rv_decode` and `rv_asm`: from words to instructions, and from instructions and labels to words.

mod assembly;
mod decoding;
