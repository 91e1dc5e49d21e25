//! Tests of `elf_load`: files and what is due for them.

mod hostile;
mod large;
mod linked;
mod programs;
