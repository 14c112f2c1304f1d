// A source that std reads.
ghost use Rattle.std.specs.Prelude.{◌≡◌, ◌≤◌, length, None, IfOk, OnOk, OnErr};
ghost use Rattle.wf_host.specs.World.{Rose, next_count};
ghost use Rattle.wf_file_host.specs.FileSource.{file_source_faults};

use crate::LateFile;
use std::alloc::Global;
use std::fs::{File, Files};
use std::io;
use std::io::Read;
use wf_host::{Failed, Source};
use wf_value::OutOfMemory;

/// A file or standard input. It tells nothing of what it has left, but counts its faults.
#[derive(Drop)]
pub struct FileSource<R: Read> {
    inner: R,
    faults: u64,
}

impl<R: Read> FileSource<R> {
    /// A source that reads from this reader.
    pub fn new(inner: R) -> FileSource<R>
        ensures { file_source_faults result ≡ 0 }
    {
        FileSource { inner, faults: 0 }
    }
}

impl<R: Files<File = File> + Drop> FileSource<LateFile<R>> {
    /// The file at this path, which is opened at the first read. One that can't be opened fails at each read.
    pub fn at(alloc: Global, rt: R, path: &str) -> Result<FileSource<LateFile<R>>, OutOfMemory>
        ensures { IfOk result (λ s. file_source_faults s ≡ 0) }
    {
        let path = String::from_str(alloc, path)?;
        Ok(FileSource::new(LateFile::new(rt, path)))
    }
}

impl<R: Read> Source for FileSource<R> {
    ghost left = { λ s. None };

    ghost faults = { file_source_faults };

    /// Reads from the reader, and again where a signal cut the read off.
    fn read(&mut self, into: &mut [u8]) -> Result<usize, Failed>
        ensures bound { IfOk result (λ n. n ≤ length into.old) }
        ensures counts { file_source_faults self.old ≤ file_source_faults self.new }
        ensures cause { OnErr result (Rose (file_source_faults self.old)
            (file_source_faults self.new)) }
        ensures rests { OnOk result (file_source_faults self.new ≡ file_source_faults self.old) }
        ensures rises { OnErr result (file_source_faults self.new
            ≡ next_count (file_source_faults self.old)) }
    {
        let inner = &mut self.inner;
        for _ in 0..u64::MAX {
            match inner.read(into) {
                Ok(count) => return Ok(count),
                Err(e) if e.kind() == io::ErrorKind::Interrupted => {}
                Err(_) => break,
            }
        }
        self.faults = self.faults.saturating_add(1);
        Err(Failed)
    }
}
