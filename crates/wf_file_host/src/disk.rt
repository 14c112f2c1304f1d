// Where the real host keeps a journal.
ghost use Rattle.std.specs.Prelude.{◌≤◌, ◌+◌, length, IfOk, OnOk};
ghost use Rattle.wf_host.specs.World.{longest};

use crate::DiskError;
use crate::journal_file::JournalFile;
use std::fs::{File, Files};
use wf_host::{Failed, LONGEST, copy_from, put_in};

/// A journal.
pub(crate) enum Disk {
    /// A file at a path.
    Journal(JournalFile),
    /// Memory, which ends with the program.
    Memory(Vec<u8>),
}

// Written, and not derived: it is one call wherever a disk is let go.
impl Drop for Disk {
    fn drop(self) {
        match self {
            Disk::Journal(_) | Disk::Memory(_) => {}
        }
    }
}

impl Disk {
    /// Why a call on the file failed.
    pub(crate) fn error(&self) -> Option<DiskError> {
        match self {
            Disk::Journal(file) => file.error(),
            Disk::Memory(_) => None,
        }
    }

    /// The length in bytes.
    pub(crate) fn size<R: Files<File = File>>(&mut self, rt: &R) -> Result<u64, Failed>
        ensures { IfOk result (λ n. n ≤ longest) }
    {
        let size = match self {
            Disk::Journal(file) => file.size(rt)?,
            Disk::Memory(file) => file.len() as u64,
        };
        if size > LONGEST {
            return Err(Failed);
        }
        Ok(size)
    }

    /// Fills the room with the bytes at an offset, as far as they reach.
    pub(crate) fn read_at<R: Files<File = File>>(
        &mut self,
        rt: &R,
        at: u64,
        into: &mut [u8],
    ) -> Result<usize, Failed>
        ensures { IfOk result (λ n. n ≤ length into.old) }
    {
        match self {
            Disk::Journal(file) => file.read_at(rt, at, into),
            Disk::Memory(file) => Ok(copy_from(file, at, into)),
        }
    }

    /// Writes at or before the end. A write behind it in memory, or past the longest file, fails.
    pub(crate) fn write_at<R: Files<File = File>>(
        &mut self,
        rt: &R,
        at: u64,
        bytes: &[u8],
    ) -> Result<(), Failed>
        requires { at ≤ longest }
        ensures { OnOk result (at + length bytes.now ≤ longest) }
    {
        if bytes.len() as u64 > LONGEST - at {
            return Err(Failed);
        }
        match self {
            Disk::Journal(file) => file.write_at(rt, at, bytes),
            Disk::Memory(file) => {
                if at > file.len() as u64 {
                    return Err(Failed);
                }
                match put_in(file, at as usize, bytes) {
                    Ok(()) => Ok(()),
                    Err(_) => Err(Failed),
                }
            }
        }
    }

    /// Makes what was written stable.
    pub(crate) fn sync<R: Files<File = File>>(&mut self, rt: &R) -> Result<(), Failed> {
        match self {
            Disk::Journal(file) => file.sync(rt),
            Disk::Memory(_) => Ok(()),
        }
    }
}
