// The top call.
ghost use Rattle.std.specs.Prelude.{◌≡◌, ◌≤◌, ℕ, List, Ok};
ghost use Rattle.wf_cli.specs.Calls.{called};
ghost use Rattle.wf_cli.specs.Promises.{Promised};
ghost use Rattle.wf_cli.specs.Said.{IsEnd, Printing, SaysBadLine, SaysReport, PrintsSaid, Worked, text_of};
ghost use Rattle.wf_engine.specs.Safe.{scene};
ghost use Rattle.wf_engine.specs.TheOutside.{InTheOutside};
ghost use Rattle.wf_host.specs.Calls.{NoCountFalls, TellsAsBefore};
ghost use Rattle.wf_host.specs.World.{Told};
ghost use Rattle.wf_args.specs.Lines.{line_of, words_view};
ghost use Rattle.wf_args.specs.Plain.{plain_line};

use crate::checking::check;
use crate::end::{Said, Silence};
use crate::execution::{resume, run};
use crate::formatting::format;
use crate::reporting::report;
use std::alloc::Global;
use wf_args::{Command, Line, LineFault, help_text, read_line, version_text};
use wf_deeds::laws_of_deeds;
use wf_host::{Host, Source, print_all};
use wf_source::laws_of_sources;
use wf_status::Status;

/// Prints what a command has to say, and gives the status.
fn tell<H: Host>(host: &mut H, said: Result<Said, Silence>) -> Status
    ensures ends { PrintsSaid said (H.world host.old) (H.world host.new) (H.faults host.old)
        (H.faults host.new) result }
    ensures printing { Told (H.world host.old)
        (Printing (text_of said) (H.world host.old) (H.world host.new)) }
    ensures tells { TellsAsBefore H.world host.old host.new }
    ensures counts { NoCountFalls H.faults host.old host.new }
{
    match said {
        Ok(said) => {
            if print_all(host, said.text.as_slice()) {
                said.status
            } else {
                Status::PrintFault
            }
        }
        Err(Silence::Unread) => Status::ReadFault,
        Err(Silence::DiskFault) => Status::DiskFault,
        Err(Silence::PollFault) => Status::PollFault,
        Err(Silence::OutOfMemory) => Status::OutOfMemory,
    }
}

/// A text of the program, to be printed.
fn text_of_program(alloc: Global, text: &str) -> Result<Said, Silence>
    ensures { SaysReport text.now result }
{
    Ok(Said::report(alloc, text)?)
}

/// What is told of words that are no line.
fn bad_line(alloc: Global, fault: LineFault) -> Result<Said, Silence>
    ensures { SaysBadLine fault result }
{
    match fault {
        LineFault::BadLine(word) => Ok(Said::line(alloc, Status::BadLine(word))?),
        LineFault::OutOfMemory => Err(Silence::OutOfMemory),
    }
}

/// Does what a line says, up to what is to be printed.
fn execute<S: Source, H: Host>(
    alloc: Global,
    line: &Line<'_>,
    source: &mut S,
    host: &mut H,
) -> Result<Said, Silence>
    ensures end { (words : List (List ℕ)) → line_of words ≡ Ok (plain_line line.now)
        → IsEnd (scene words (S.left source.old) (H.world host.old)) (H.world host.old)
        (H.world host.new) (S.faults source.old) (S.faults source.new) (H.faults host.old)
        (H.faults host.new) result }
    ensures worked { InTheOutside (λ O. Told (H.world host.old) ((words : List (List ℕ))
        → line_of words ≡ Ok (plain_line line.now)
        → Worked O (scene words (S.left source.old) (H.world host.old)) (H.world host.old)
        (H.world host.new) result)) }
    ensures tells { TellsAsBefore H.world host.old host.new }
    ensures reads { S.faults source.old ≤ S.faults source.new }
    ensures counts { NoCountFalls H.faults host.old host.new }
{
    match line.command() {
        Command::Check => check(alloc, source),
        Command::Format => format(alloc, source),
        Command::Run => run(alloc, line, source, host),
        Command::Resume => resume(alloc, line, host),
        Command::Show | Command::At | Command::Log => report(alloc, line, host),
        Command::Help => text_of_program(alloc, help_text()),
        Command::Version => text_of_program(alloc, version_text()),
    }
}

/// Does what a line says that was read, prints what it comes to, and returns the status, as [`run_line`] does.
pub fn perform<S: Source, H: Host>(
    alloc: Global,
    line: &Line<'_>,
    source: &mut S,
    host: &mut H,
) -> Status
    ensures promised { (words : List (List ℕ)) → line_of words ≡ Ok (plain_line line.now)
        → Promised (called words (S.left source.old) (H.world host.old) (H.world host.new)
        (S.faults source.old) (S.faults source.new) (H.faults host.old) (H.faults host.new)
        result) }
    ensures tells { TellsAsBefore H.world host.old host.new }
    ensures reads { S.faults source.old ≤ S.faults source.new }
    ensures counts { NoCountFalls H.faults host.old host.new }
{
    // laws that the proof uses
    laws_of_deeds();
    laws_of_sources();
    let said = execute(alloc, line, source, host);
    tell(host, said)
}

/// Does what the words of a command line say, prints what it comes to, and returns the status. `words` are those behind the program's
/// name.
///
/// `check` reads the source to its end and prints `accepted` with [`Status::Done`] where it is a program that the checker accepts. `format`
/// reads the source to its end and prints its tree in one layout, from which the same tree is read back, with [`Status::Done`]. `run` looks
/// at the argument, reads the source to its end, begins its execution on the journal, and goes on to the outcome; `resume` goes on with the
/// execution that stands in the journal. A value prints as a line of JSON with [`Status::Done`], an error with [`Status::Raised`]. `show`,
/// `at` and `log` print what the execution that stands in the journal has come to, what it had come to after some turns, and what it has
/// logged, with [`Status::Done`]. The words `--help` and `--version` alone print a text, with [`Status::Done`]. The causes of the other
/// statuses are looked at in this order:
///
/// - [`Status::BadLine`]: the words are no line.
/// - [`Status::BadArgument`]: the word of `--args` is no JSON of a value, or its value counts more than 32,768.
/// - [`Status::ReadFault`]: a read of the source failed.
/// - [`Status::Refused`]: the source has more than 131,072 bytes, or no tree by its reader, or, under `check` and `run`, is no program that
///   the checker accepts.
/// - [`Status::DiskFault`]: a call of the disk failed.
/// - [`Status::NotAJournal`]: the file has at least 5 bytes and doesn't begin with `WFJ1`.
/// - [`Status::AlreadyStarted`]: `run` finds a first record. [`Status::NotStarted`]: `resume`, `show`, `at` or `log` finds none.
/// - [`Status::NotAHistory`]: one of these finds records that are no history.
/// - [`Status::PollFault`]: a poll failed.
/// - [`Status::Suspended`]: there is no outcome yet, nothing can move, and the command has polled as often as `--waits` says, or 1,000,000
///   times.
/// - [`Status::PrintFault`]: a print failed or took nothing. [`Status::OutOfMemory`]: memory ran out.
///
/// It may be killed at any moment, also in the middle of a write: what stands in the file then is one run that the language's meaning
/// allows for the clocks read, or no run yet, and `resume` or `run` can go on from there. What was printed is the front of what the
/// execution of the file prints.
pub fn run_line<S: Source, H: Host>(
    alloc: Global,
    words: &[String],
    source: &mut S,
    host: &mut H,
) -> Status
    ensures promised { Promised (called (words_view words.now) (S.left source.old)
        (H.world host.old) (H.world host.new) (S.faults source.old) (S.faults source.new)
        (H.faults host.old) (H.faults host.new) result) }
    ensures tells { TellsAsBefore H.world host.old host.new }
    ensures reads { S.faults source.old ≤ S.faults source.new }
    ensures counts { NoCountFalls H.faults host.old host.new }
{
    // laws that the proof uses
    laws_of_deeds();
    laws_of_sources();
    match read_line(alloc, words) {
        Ok(line) => perform(alloc, &line, source, host),
        Err(fault) => tell(host, bad_line(alloc, fault)),
    }
}
