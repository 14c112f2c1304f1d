// A journal in a file.
ghost use Rattle.std.specs.Prelude.{◌≤◌, length, IfOk};

use crate::DiskError;
use std::fs::{self, File, Files, OpenFile, OpenOptions, TryLockError};
use std::io;
use std::os::unix::fs::{FileExt, OpenOptionsExt};
use wf_host::Failed;

/// Who may use a new journal: its owner alone may read and write it, since it holds arguments, the environment and answers.
const OWNER_ALONE: u32 = 0o600;

/// No system has smaller pages, in bytes.
const PAGE: u64 = 4096;

/// The journal at a path. It is opened at the first call and made at the first write, so a command that touches no journal leaves none
/// behind. From its opening on it is locked, so that no two processes write into one journal.
#[derive(Drop)]
pub(crate) struct JournalFile {
    path: String,
    state: State,
    /// More is to be written into it.
    grows: bool,
    /// It was found, and more is to be written into it: an earlier sync may have failed, so what is read may not stand on the disk, and
    /// a sync alone wouldn't tell.
    is_doubtful: bool,
    /// A file was made, and its entry in the folder isn't synced yet.
    is_made: bool,
    /// Why it can't be used, or not be written.
    error: Option<DiskError>,
}

/// How far a journal is opened.
enum State {
    /// No call came yet.
    Unopened,
    /// There is no file at the path.
    Missing,
    /// The file is open, and locked.
    Open(File),
    /// The file is open and locked, and can only be read.
    ReadOnly(File),
    /// The file can't be opened, or another process holds it.
    Broken,
}

// Written, and not derived: it is one call wherever a state is let go.
impl Drop for State {
    fn drop(self) {
        match self {
            State::Open(_) | State::ReadOnly(_) => {}
            State::Unopened | State::Missing | State::Broken => {}
        }
    }
}

impl JournalFile {
    /// The journal at this path, into which more is to be written or not. Nothing is opened yet.
    pub(crate) fn new(path: String, grows: bool) -> JournalFile {
        JournalFile {
            path,
            state: State::Unopened,
            grows,
            is_doubtful: false,
            is_made: false,
            error: None,
        }
    }

    /// Why a call failed.
    pub(crate) fn error(&self) -> Option<DiskError> {
        self.error
    }

    /// The length in bytes; 0 where there is no file.
    pub(crate) fn size<R: Files<File = File>>(&mut self, rt: &R) -> Result<u64, Failed> {
        let found = match self.reached(rt)? {
            None => return Ok(0),
            Some(file) => file.metadata(),
        };
        match found {
            Ok(found) => Ok(found.len()),
            Err(e) => Err(self.failed(&e)),
        }
    }

    /// Fills the room with the bytes at an offset, as far as they reach.
    pub(crate) fn read_at<R: Files<File = File>>(
        &mut self,
        rt: &R,
        at: u64,
        into: &mut [u8],
    ) -> Result<usize, Failed>
        ensures { IfOk result (λ n. n ≤ length into.old) }
    {
        let filled = match self.reached(rt)? {
            None => return Ok(0),
            Some(file) => fill(file, at, into),
        };
        match filled {
            Ok(count) => Ok(count),
            Err(e) => Err(self.failed(&e)),
        }
    }

    /// Writes the bytes at an offset. A file that isn't there is made first.
    pub(crate) fn write_at<R: Files<File = File>>(
        &mut self,
        rt: &R,
        at: u64,
        bytes: &[u8],
    ) -> Result<(), Failed> {
        self.open(rt);
        self.make(rt);
        let written = match &self.state {
            State::Open(file) => file.write_all_at(bytes, at),
            State::ReadOnly(_) | State::Unopened | State::Missing | State::Broken => {
                return Err(Failed);
            }
        };
        match written {
            Ok(()) => Ok(()),
            Err(e) => Err(self.failed(&e)),
        }
    }

    /// Makes what was written stable: the file, and once the entry of a file that was made in its folder. Of a file that was found what
    /// is read is written again first, once.
    pub(crate) fn sync<R: Files<File = File>>(&mut self, rt: &R) -> Result<(), Failed> {
        self.open(rt);
        let is_doubtful = self.is_doubtful;
        let synced = match self.reached(rt)? {
            None => return Ok(()),
            Some(file) => sync_file(file, is_doubtful),
        };
        if let Err(e) = synced {
            return Err(self.failed(&e));
        }
        self.is_doubtful = false;
        if self.is_made {
            if let Err(e) = sync_folder(rt, self.path.as_str()) {
                return Err(self.failed(&e));
            }
            self.is_made = false;
        }
        Ok(())
    }

    /// The open file, or none where there is none.
    fn reached<R: Files<File = File>>(&mut self, rt: &R) -> Result<Option<&File>, Failed> {
        self.open(rt);
        match &self.state {
            State::Open(file) | State::ReadOnly(file) => Ok(Some(file)),
            State::Missing => Ok(None),
            State::Unopened | State::Broken => Err(Failed),
        }
    }

    /// Opens and locks the file, at the first call. A file that can't be written is opened for reading alone.
    fn open<R: Files<File = File>>(&mut self, rt: &R) {
        if !matches!(self.state, State::Unopened) {
            return;
        }
        let mut how = OpenOptions::new();
        how.read(true).write(true);
        match how.open(rt, self.path.as_str()) {
            Ok(file) => {
                self.is_doubtful = self.grows;
                self.hold(file, true);
            }
            Err(e) => match e.kind() {
                io::ErrorKind::NotFound => self.state = State::Missing,
                io::ErrorKind::IsADirectory => self.refuse(DiskError::IsFolder),
                _ => self.open_to_read(rt, DiskError::of(&e)),
            },
        }
    }

    /// Opens and locks a file that can't be written, for reading alone.
    fn open_to_read<R: Files<File = File>>(&mut self, rt: &R, why: DiskError) {
        self.refuse(why);
        if let Ok(file) = fs::open(rt, self.path.as_str()) {
            self.hold(file, false);
        }
    }

    /// Makes and locks the file where there is none. Where another process has made it meanwhile, it is that one's.
    fn make<R: Files<File = File>>(&mut self, rt: &R) {
        if !matches!(self.state, State::Missing) {
            return;
        }
        let mut how = OpenOptions::new();
        how.read(true)
            .write(true)
            .create_new(true)
            .mode(OWNER_ALONE);
        match how.open(rt, self.path.as_str()) {
            Ok(file) => {
                self.is_made = true;
                self.hold(file, true);
            }
            Err(e) if e.kind() == io::ErrorKind::AlreadyExists => {
                let why = found_late(rt, self.path.as_str());
                self.refuse(why);
            }
            Err(e) => self.refuse(DiskError::of(&e)),
        }
    }

    /// Locks an open file for this process alone.
    fn hold(&mut self, file: File, is_writable: bool) {
        match file.try_lock() {
            Ok(()) if is_writable => self.state = State::Open(file),
            Ok(()) => self.state = State::ReadOnly(file),
            Err(TryLockError::WouldBlock) => self.refuse(DiskError::Held),
            Err(TryLockError::Error(e)) => self.refuse(DiskError::of(&e)),
        }
    }

    /// It can't be used.
    fn refuse(&mut self, why: DiskError) {
        self.error = Some(why);
        self.state = State::Broken;
    }

    /// The system refused a call.
    fn failed(&mut self, error: &io::Error) -> Failed {
        self.error = Some(DiskError::of(error));
        Failed
    }
}

/// Why a file can't be made that wasn't there when it was opened: its path is that of a link which leads nowhere, or another process has
/// made it.
fn found_late<R: Files<File = File>>(rt: &R, path: &str) -> DiskError {
    match fs::metadata(rt, path) {
        Err(e) if e.kind() == io::ErrorKind::NotFound => DiskError::LooseLink,
        _ => DiskError::Held,
    }
}

/// Makes stable what is read of a file. Where that is doubtful it is written again first.
fn sync_file(file: &File, is_doubtful: bool) -> io::Result<()> {
    if is_doubtful {
        rewrite(file)?;
    }
    file.sync_all()
}

/// Writes a byte of each page again, as it is read, so that the next sync writes all pages: behind a sync that failed the system may take
/// them for written.
fn rewrite(file: &File) -> io::Result<()> {
    let length = file.metadata()?.len();
    for page in 0..length.div_ceil(PAGE) {
        let at = page.saturating_mul(PAGE);
        let mut byte = [0; 1];
        if fill(file, at, &mut byte)? == 1 {
            file.write_all_at(&byte, at)?;
        }
    }
    Ok(())
}

/// Syncs the folder in which the file at this path stands.
fn sync_folder<R: Files<File = File>>(rt: &R, path: &str) -> io::Result<()> {
    let folder = match path.rsplit_once('/') {
        None => ".",
        Some(("", _)) => "/",
        Some((folder, _)) => folder,
    };
    fs::open(rt, folder)?.sync_all()
}

/// Fills the room as far as the file reaches.
fn fill(file: &File, at: u64, into: &mut [u8]) -> io::Result<usize>
    ensures { IfOk result (λ n. n ≤ length into.old) }
{
    let mut count = 0;
    for _ in 0..u64::MAX {
        if count >= into.len() {
            break;
        }
        match file.read_at(&mut into[count..], at.saturating_add(count as u64)) {
            Ok(0) => break,
            Ok(more) => count += more,
            Err(e) if e.kind() == io::ErrorKind::Interrupted => {}
            Err(e) => return Err(e),
        }
    }
    Ok(count)
}
