//! Tests of `sys_calls`: each refusal of each call beside a call that succeeds, with answers from the manual
//! pages; what threads do to one another by calls; and what the kernel writes.

mod bench;
mod histories;
mod refusals;
mod registers;
mod scenes;
mod steps;
mod words;
