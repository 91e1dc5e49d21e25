//! `rseq_run`: runs a RISC-V program on a machine of several harts, and prints its console, its log or its
//! gathered log, and how it ended; or what came of each line of its log; or its acts, or how many of each form
//! each hart made; or the place that a script comes to; or the different outcomes of many runs. Or it runs two
//! programs together by a script, and prints both consoles, the log, and how each process and the pair ended. Words that
//! ask for help or for the version are no command, and are answered before.
#![tactic(auto)]

use call_reasons::{Explained, Fault, Reason};
use command_words::{Question, question_of};
use outside::{FileShelf, Meter, MeteredSink, OpenGate, OutSink};
use reason_text::{
    AtHand, Keep, Keeping, KeepingShelf, OUT_OF_MEMORY, answer_text, brief, explain, usage_text,
};
use std::alloc::Global;
use std::env;
use std::io::{self, ErrorKind, IsTerminal};
use std::path::Path;
use std::process::ExitCode;
use std::rt::Files;
use std::sync::Wait;
use std::thread::Threads;
use std::time::Clock;
use top_call::rseq_explained;

/// The most bytes of a file that are kept for a message, where it can be read again.
const MOST_KEPT: usize = 1_048_576;

/// The exit status of a call that wrote its output.
const DONE: u8 = 0;

/// What is kept of the files of the system.
#[derive(Drop)]
struct SystemKeeping<R: Files>(R);

impl<R: Files> Keeping for SystemKeeping<R> {
    /// All of a file that isn't a regular one, as a pipe.
    fn keep_of(&self, name: &str) -> Keep {
        if Path::new(name).is_file(&self.0) {
            Keep::UpTo(MOST_KEPT)
        } else {
            Keep::All
        }
    }
}

/// Where the words can't be taken, nothing is printed on standard output.
fn main(rt: HostRuntime) -> ExitCode {
    match system_words(&rt) {
        Ok(words) => ExitCode::from(match question_of(&words) {
            Some(question) => reply(rt.alloc(), &rt, question, &words),
            None => {
                let meter = Meter::new(rt, rt.stderr().is_terminal());
                answer(rt.alloc(), &rt, &words, meter)
            }
        }),
        Err(fault) => {
            say_fault(rt.alloc(), &rt, fault);
            ExitCode::from(fault.status())
        }
    }
}

/// Prints the answer to a question on standard output, and gives the exit status: that of a command that wrote its output,
/// or that of want of memory, or of an output that couldn't be written.
fn reply<R: Print + Eprint>(alloc: Global, rt: &R, question: Question, words: &[String]) -> u8 {
    let command = match words.first() {
        Some(word) => word.as_str(),
        None => "",
    };
    let Ok(text) = answer_text(alloc, question, command) else {
        say(rt, OUT_OF_MEMORY);
        return Fault::Memory.status();
    };
    match rt.print(text.as_str()) {
        Ok(()) => DONE,
        Err(error) => {
            let reason = Reason::Unwritten {
                trouble: Some(error.kind()),
            };
            let status = reason.status();
            let at_hand = AtHand { words, script: &[] };
            say_reason(alloc, rt, &Some(reason), at_hand);
            status
        }
    }
}

/// Does what the words ask for, with the files of the system and standard output, and gives the exit status. Where
/// there is no output, standard error says why; where that couldn't be written, it says so behind it. The meter shows how far
/// an exploration is.
fn answer<R: Threads + Wait + Sync + Files + Print + Eprint + Clock + Copy>(
    alloc: Global,
    rt: &R,
    words: &[String],
    meter: Meter<R>,
) -> u8 {
    let mut shelf = KeepingShelf::new(alloc, FileShelf::new(*rt), SystemKeeping(*rt));
    let mut sink = MeteredSink::new(OutSink::new(io::writer(rt)), meter);
    let explained = rseq_explained(alloc, rt, words, &mut shelf, &mut sink, &OpenGate);
    if is_of_script(&explained) {
        shelf.keep_script();
    }
    let at_hand = AtHand {
        words,
        script: shelf.kept(),
    };
    say_reason(alloc, rt, &explained.untold, at_hand);
    say_reason(alloc, rt, &explained.reason, at_hand);
    explained.status
}

/// Whether a reason is of a line of the script.
fn is_of_script(explained: &Explained) -> bool {
    matches!(explained.reason, Some(Reason::Script { .. }))
        || matches!(explained.untold, Some(Reason::Script { .. }))
}

/// Says a reason, if there is one. Of a pipe that has no reader left nothing is said: whoever closed it, as
/// `head` does, wants no more.
fn say_reason<R: Eprint>(alloc: Global, rt: &R, reason: &Option<Reason>, at_hand: AtHand) {
    let Some(reason) = reason else {
        return;
    };
    if is_closed_pipe(reason) {
        return;
    }
    match explain(alloc, reason, at_hand) {
        Ok(text) => say(rt, text.as_str()),
        Err(_) => say(rt, brief(reason)),
    }
}

/// Whether the text couldn't be written since nobody reads the pipe any more.
fn is_closed_pipe(reason: &Reason) -> bool {
    matches!(
        reason,
        Reason::Unwritten {
            trouble: Some(ErrorKind::BrokenPipe)
        }
    )
}

/// Prints a text to standard error. Where that can't be written, nobody is told.
fn say<R: Eprint>(rt: &R, text: &str) {
    let _ = rt.eprint(text);
}

/// The words of the command line without the program's own name. A word that isn't UTF-8 is a fault of
/// usage.
fn system_words(rt: &HostRuntime) -> Result<Vec<String>, Fault> {
    match env::args(rt) {
        Ok(args) => args.skip(1).collect(rt.alloc()).map_err(|_| Fault::Memory),
        Err(error) if error.kind() == ErrorKind::OutOfMemory => Err(Fault::Memory),
        Err(_) => Err(Fault::Usage),
    }
}

/// Says why the words can't be taken.
fn say_fault<R: Eprint>(alloc: Global, rt: &R, fault: Fault) {
    match fault {
        Fault::Memory => say(rt, OUT_OF_MEMORY),
        _ => {
            say(rt, "rseq_run: a word of the command line isn't UTF-8\n");
            if let Ok(usage) = usage_text(alloc) {
                say(rt, usage.as_str());
            }
        }
    }
}
