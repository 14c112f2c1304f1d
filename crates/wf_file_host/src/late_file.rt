// A file that is opened late.
use std::fs::{self, File, Files};
use std::io;
use std::io::Read;

/// A file at a path, which is opened at its first read. One that can't be opened fails at each read.
#[derive(Drop)]
pub struct LateFile<R: Files<File = File> + Drop> {
    rt: R,
    path: String,
    file: Option<File>,
}

impl<R: Files<File = File> + Drop> LateFile<R> {
    /// The file at this path. Nothing is opened yet.
    pub(crate) fn new(rt: R, path: String) -> LateFile<R> {
        LateFile {
            rt,
            path,
            file: None,
        }
    }
}

impl<R: Files<File = File> + Drop> Read for LateFile<R> {
    fn read(&mut self, into: &mut [u8]) -> io::Result<usize> {
        let mut file = match self.file.take() {
            Some(file) => file,
            None => fs::open(&self.rt, self.path.as_str())?,
        };
        let answer = file.read(into);
        self.file = Some(file);
        answer
    }
}
