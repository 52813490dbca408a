//! `hms`: signature bases of recorded HTTP/1.1 messages, what their signatures are worth (RFC
//! 9421), what proxies may make of them, and what they made of them, hop by hop.
//!
//! The program does what [`program::run`] does with its arguments, the files that they name,
//! standard input and standard output:
//!
//! ```text
//! run(alloc, arguments, &mut shelf, &mut source, &mut out).status // to exit with
//! ```
#![tactic(auto)]

use command_line::{after_name, words_fault};
use hms_io::{DirShelf, Status, StdSink, StdSource};
use program::run;
use refusals::Refusal;
use std::env;
use std::io::ErrorKind;
use std::process::ExitCode;

/// The arguments of the process.
#[derive(Drop)]
struct Arguments {
    /// The program's name and the words after it; none where one of them is no text.
    words: Vec<String>,
    /// Whether each is a text.
    are_texts: bool,
}

fn arguments_of(rt: &HostRuntime) -> Result<Arguments, Status> {
    match env::args(rt) {
        Ok(arguments) => match arguments.collect(rt.alloc()) {
            Ok(words) => Ok(Arguments {
                words,
                are_texts: true,
            }),
            Err(_) => Err(Status::OutOfMemory),
        },
        Err(error) => match error.kind() {
            ErrorKind::OutOfMemory => Err(Status::OutOfMemory),
            // an argument that is no text is in no command
            _ => Ok(Arguments {
                words: Vec::new(rt.alloc()),
                are_texts: false,
            }),
        },
    }
}

/// Says on standard error what is wrong with arguments that are no command.
fn explain_arguments(rt: &HostRuntime, arguments: &Arguments) {
    if !arguments.are_texts {
        let _ = eprintln!(rt; "hms: an argument isn't UTF-8; see hms --help");
    } else if let Some(fault) = words_fault(after_name(&arguments.words)) {
        let _ = eprintln!(rt; "hms: {fault}");
    }
}

/// Says on standard error what is to be mended. No script reads it, so nothing is done where it
/// can't be written.
fn explain(rt: &HostRuntime, arguments: &Arguments, refusal: &Refusal) {
    match refusal {
        Refusal::Arguments => explain_arguments(rt, arguments),
        _ => {
            let hint = refusal.hint();
            let _ = eprintln!(rt; "hms: {hint}");
        }
    }
}

fn main(rt: HostRuntime) -> ExitCode {
    let arguments = match arguments_of(&rt) {
        Ok(arguments) => arguments,
        Err(status) => return ExitCode::from(status.code()),
    };
    let mut shelf = DirShelf::new(&rt);
    let mut source = StdSource::new(rt.stdin());
    let mut out = StdSink::new(rt.stdout());
    let ended = run(
        rt.alloc(),
        after_name(&arguments.words),
        &mut shelf,
        &mut source,
        &mut out,
    );
    if let Some(refusal) = &ended.refusal {
        explain(&rt, &arguments, refusal);
    }
    ExitCode::from(ended.status.code())
}
