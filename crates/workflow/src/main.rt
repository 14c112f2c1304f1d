//! `workflow run --source FILE --journal JOURNAL` runs the workflow of a file to its outcome, and prints it; `workflow resume --journal
//! JOURNAL` goes on with it, wherever it was stopped.
#![tactic(auto)]

mod complaint;
mod descriptors;
mod memory;

use complaint::complain;
use descriptors::take_standard_descriptors;
use memory::keep_freed_memory;
use std::env;
use std::fs::{File, Files};
use std::io::{Eprint, ErrorKind, Input, Print};
use std::net::Net;
use std::process::ExitCode;
use std::rt::Env;
use std::time::Clock;
use wf_args::{journal_of, source_of};
use wf_cli::run_line;
use wf_file_host::{FileHost, FileSource};

fn main(rt: HostRuntime) -> ExitCode {
    // held to the end, so that no file of ours gets a standard descriptor
    let _taken = take_standard_descriptors(&rt);
    keep_freed_memory(rt.alloc());
    let code = match run(rt) {
        Ok(code) => code,
        Err(code) => code,
    };
    ExitCode::from(code)
}

/// Runs the line of the program's words, and returns the exit status that [`run_line`] says. The status is an error where it ends before
/// that: 2 where a word isn't UTF-8, 14 where there is no memory for the words or the paths.
fn run<R>(rt: R) -> Result<u8, u8>
where
    R: Env + Files<File = File> + Clock + Input + Print + Eprint + Net + AllocGlobal + Copy + Drop,
{
    let alloc = rt.alloc();
    let words = words_of(&rt)?;
    let mut host = match journal_of(&words) {
        Some(path) if goes_on(&words) => {
            FileHost::with_journal(alloc, rt, path).map_err(|_| NO_MEMORY)?
        }
        Some(path) => FileHost::telling_of(alloc, rt, path).map_err(|_| NO_MEMORY)?,
        None => FileHost::in_memory(alloc, rt),
    };
    let status = match source_of(&words) {
        Some(path) => {
            let mut source = FileSource::at(alloc, rt, path).map_err(|_| NO_MEMORY)?;
            run_line(alloc, &words, &mut source, &mut host)
        }
        None => run_line(alloc, &words, &mut FileSource::new(rt.reader()), &mut host),
    };
    complain(&rt, &words, &status, host.disk_error());
    Ok(status.code())
}

/// The status where there is no memory.
const NO_MEMORY: u8 = 14;

/// Whether a line of these words may write into its journal.
fn goes_on(words: &[String]) -> bool {
    match words.first() {
        Some(word) => matches!(word.as_str(), "run" | "resume"),
        None => false,
    }
}

/// The words behind the program's name, or the status where they can't be had.
fn words_of(rt: &(impl Env + AllocGlobal)) -> Result<Vec<String>, u8> {
    let args = match env::args(rt) {
        Ok(args) => args,
        Err(e) if e.kind() == ErrorKind::OutOfMemory => return Err(NO_MEMORY),
        Err(_) => return Err(2),
    };
    let mut words = Vec::new(rt.alloc());
    for word in args.skip(1) {
        if words.push(word).is_err() {
            return Err(NO_MEMORY);
        }
    }
    Ok(words)
}
