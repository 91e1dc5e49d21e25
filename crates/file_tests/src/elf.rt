//! Tests of `elf_load` and `elf_make`, by the files of small programs.

mod files;
mod loading;
mod making;
