// What is said on standard error, beside what is printed.
use std::io::Eprint;
use wf_args::{journal_of, source_of};
use wf_file_host::DiskError;
use wf_status::Status;

/// Says on standard error why nothing, or not all, was printed, and where help is behind a bad line. A failure to say so changes nothing.
pub(crate) fn complain<R: Eprint>(
    rt: &R,
    words: &[String],
    status: &Status,
    error: Option<DiskError>,
) {
    let _ = match status {
        Status::BadLine(_) => {
            eprintln!(rt; "workflow: `workflow --help` tells which lines there are")
        }
        Status::ReadFault => {
            let source = source_of(words).unwrap_or("standard input");
            eprintln!(rt; "workflow: cannot read {source}")
        }
        Status::DiskFault => {
            let journal = journal_of(words).unwrap_or("the journal in memory");
            let (before, behind) = around(error.unwrap_or(DiskError::Other));
            eprintln!(rt; "workflow: {before}{journal}{behind}")
        }
        Status::PollFault => eprintln!(rt; "workflow: cannot wait for answers"),
        Status::PrintFault => eprintln!(rt; "workflow: cannot print the whole result"),
        Status::OutOfMemory => eprintln!(rt; "workflow: out of memory"),
        _ => Ok(()),
    };
}

/// What is said of a journal that can't be used, before its path and behind it.
fn around(error: DiskError) -> (&'static str, &'static str) {
    match error {
        DiskError::Held => ("another process uses ", ""),
        DiskError::NoFolder => ("there is no folder for ", ""),
        DiskError::IsFolder => ("", " is a folder"),
        DiskError::LooseLink => ("", " is a link that leads nowhere"),
        DiskError::NotAllowed => ("no permission to use ", ""),
        DiskError::NoRoom => ("no room for ", ""),
        DiskError::Other => ("cannot read, write or sync ", ""),
    }
}
