// The standard descriptors: input 0, output 1 and error 2.
use std::fs::{File, Files, OpenFile, OpenOptions};
use std::os::fd::AsRawFd;

/// Files that take the standard descriptors that were closed.
#[derive(Drop)]
pub(crate) struct Taken {
    input: Option<File>,
    output: Option<File>,
    error: Option<File>,
}

/// Takes each standard descriptor that is closed, so that no file that is opened later gets its number: a journal at the number of the
/// output would be printed into. A closed input then fails when it is read, and a closed output when it is printed to.
pub(crate) fn take_standard_descriptors<R: Files<File = File>>(rt: &R) -> Taken {
    let input = null(rt, false).filter(|file| file.as_raw_fd() == 0);
    let output = null(rt, true).filter(|file| file.as_raw_fd() <= 1);
    let error = null(rt, true).filter(|file| file.as_raw_fd() <= 2);
    Taken {
        input,
        output,
        error,
    }
}

/// The file that holds nothing, open for reading alone or for writing alone.
fn null<R: Files<File = File>>(rt: &R, reads: bool) -> Option<File> {
    let mut how = OpenOptions::new();
    how.read(reads).write(!reads);
    how.open(rt, "/dev/null").ok()
}
