//! What is shown of a run.

ghost use Rattle.std.specs.Prelude.{◌≡◌, IfOk};
ghost use Rattle.std.specs.List.{flat_map};
ghost use Rattle.mach_types.specs.Limits.{InRange};
ghost use Rattle.elf_load.specs.Images.{IsBootable};
ghost use Rattle.block_model.specs.Deciding.{end_of, history};
ghost use Rattle.block_model.specs.History.{console};
ghost use Rattle.block_model.specs.{Run.IsBlockRun, Setting.setting_of};
ghost use Rattle.block_view.specs.Acts.{acts_of};
ghost use Rattle.block_view.specs.Counters.{AreCounts};
ghost use Rattle.log_gather.specs.Gathered.{gathered};
ghost use Rattle.command_words.specs.Kept.{spans_kept};
ghost use Rattle.run_texts.specs.LogTexts.{log_summary, tried_text};
ghost use Rattle.run_texts.specs.Places.{asked_place};
ghost use Rattle.run_texts.specs.Summary.{act_line};
ghost use Rattle.run_texts.specs.Text.{output_text};

use crate::acts::{acts_of_run, acts_text, counts_of_run};
use crate::gather::gathered_log;
use crate::inspecting::inspected_text;
use crate::summary::{push_summary, summary_text};
use block_view::Counts;
use command_words::MemorySpans;
use elf_load::Image;
use mach_types::Limits;
use machine_core::Machine;
use place_text::push_console;
use run_texts::{Output, output_with};
use std::alloc::{AllocError, Global};

/// The summary of a run, at whose end a machine is and whose acts these counts are.
pub fn summary_output(
    alloc: Global,
    counts: &[Counts],
    machine: &Machine,
) -> Result<Output, AllocError>
    requires { AreCounts machine.now.setting machine.now.log counts.now }
    ensures { IfOk result (λ output. output ≡ log_summary machine.now.setting machine.now.log) }
{
    Ok(Output::whole(summary_text(alloc, counts, machine)?))
}

/// The place that a machine has come to, with the lines of these spans of memory.
pub fn place_output(
    alloc: Global,
    memory: &MemorySpans<'_>,
    machine: &Machine,
) -> Result<Output, AllocError>
    ensures { IfOk result (λ output. output
        ≡ asked_place (spans_kept memory.now) machine.now.setting (history machine.now.setting machine.now.log)) }
{
    Ok(Output::whole(inspected_text(alloc, memory, machine)?))
}

/// The acts of a run of this image, at whose end a machine is.
pub fn acts_output(
    alloc: Global,
    image: &Image,
    limits: &Limits,
    machine: &Machine,
) -> Result<Output, AllocError>
    requires image { IsBootable limits.now.frames image.now }
    requires limits { InRange limits.now }
    requires setting { machine.now.setting ≡ setting_of image.now limits.now }
    requires run { IsBlockRun machine.now.setting machine.now.log }
    ensures { IfOk result
        (λ output. output ≡ flat_map act_line (acts_of machine.now.setting machine.now.log)) }
{
    let acts = acts_of_run(alloc, image, limits, machine)?;
    Ok(Output::whole(acts_text(alloc, &acts)?))
}

/// The output of a run of this image, at whose end a machine is, with its gathered log.
pub fn gathered_output(
    alloc: Global,
    image: &Image,
    limits: &Limits,
    machine: &Machine,
) -> Result<Output, AllocError>
    requires image { IsBootable limits.now.frames image.now }
    requires limits { InRange limits.now }
    requires setting { machine.now.setting ≡ setting_of image.now limits.now }
    requires run { IsBlockRun machine.now.setting machine.now.log }
    ensures { let s = machine.now.setting in let before = history s machine.now.log in IfOk result
        (λ output. output ≡ output_text (console s before) (gathered s machine.now.log) (end_of s before)) }
{
    let log = gathered_log(alloc, image, limits, machine)?;
    output_with(alloc, machine, log)
}

/// The text of a trial, at the end of whose run a machine is: its console, and the summary of its log.
pub fn trial_text(
    alloc: Global,
    image: &Image,
    limits: &Limits,
    machine: &Machine,
) -> Result<Vec<u8>, AllocError>
    requires image { IsBootable limits.now.frames image.now }
    requires limits { InRange limits.now }
    requires setting { machine.now.setting ≡ setting_of image.now limits.now }
    requires run { IsBlockRun machine.now.setting machine.now.log }
    ensures { IfOk result (λ text. text.items ≡ tried_text machine.now.setting machine.now.log) }
{
    let counts = counts_of_run(alloc, image, limits, machine)?;
    let mut text = Vec::new(alloc);
    push_console(&mut text, machine.console())?;
    push_summary(&mut text, &counts, machine)?;
    Ok(text)
}
