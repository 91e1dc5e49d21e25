//! Tests of `rv_asm`: words from outside, and code with labels.

mod code;
mod words;
