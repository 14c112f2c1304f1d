// The real host. It tells nothing but its counts of faults and its clock.
ghost use Rattle.std.specs.Prelude.{◌≡◌, ◌≤◌, ◌+◌, length, IfOk, IsOk, OnOk, OnErr, IsErrOf, None};
ghost use Rattle.wf_host.specs.World.{longest, piece_len, visit_of, Rose, NoneFell, no_faults, disk_failed, poll_failed, print_failed};
ghost use Rattle.wf_host.specs.declared.data.What.TheVariants.{Nothing};
ghost use Rattle.wf_file_host.specs.Untold.{untold};
ghost use Rattle.wf_file_host.specs.FileHost.{file_host_faults, last_reading};

use crate::DiskError;
use crate::clock::{self, First};
use crate::disk::Disk;
use crate::journal_file::JournalFile;
use crate::late_sockets::LateSockets;
use std::alloc::Global;
use std::fs::{File, Files};
use std::io;
use std::io::Print;
use std::net::Net;
use std::time::Clock;
use wf_host::{Address, Failed, Heard, Host, PollError, What};
use wf_value::OutOfMemory;

/// A journal file, sockets, the system's clock and standard output. It tells nothing of what they hold, but counts its faults.
#[derive(Drop)]
pub struct FileHost<R: Files<File = File> + Clock + Print + Drop> {
    alloc: Global,
    rt: R,
    disk: Disk,
    sockets: LateSockets,
    /// The first reading of the clock.
    first: Option<First>,
    /// The greatest reading so far.
    last: u64,
    disk_faults: u64,
    poll_faults: u64,
    print_faults: u64,
}

impl<R: Files<File = File> + Clock + Print + Drop> FileHost<R> {
    /// A host without a journal: its disk is memory, and ends with the program.
    pub fn in_memory(alloc: Global, rt: R) -> FileHost<R>
        ensures { file_host_faults result ≡ no_faults }
    {
        FileHost::on(alloc, rt, Disk::Memory(Vec::new(alloc)))
    }

    /// A host with the journal at this path. It is opened at the first disk call and made at the first write. Where it can't be opened,
    /// or another process holds it, each disk call fails. The first sync of a file that was there writes it anew, byte for byte.
    pub fn with_journal(alloc: Global, rt: R, path: &str) -> Result<FileHost<R>, OutOfMemory>
        ensures { IfOk result (λ h. file_host_faults h ≡ no_faults) }
    {
        FileHost::at(alloc, rt, path, true)
    }

    /// The same for a command that only tells of the journal: no sync writes it anew.
    pub fn telling_of(alloc: Global, rt: R, path: &str) -> Result<FileHost<R>, OutOfMemory>
        ensures { IfOk result (λ h. file_host_faults h ≡ no_faults) }
    {
        FileHost::at(alloc, rt, path, false)
    }

    fn at(alloc: Global, rt: R, path: &str, grows: bool) -> Result<FileHost<R>, OutOfMemory>
        ensures { IfOk result (λ h. file_host_faults h ≡ no_faults) }
    {
        let path = String::from_str(alloc, path)?;
        let file = JournalFile::new(path, grows);
        Ok(FileHost::on(alloc, rt, Disk::Journal(file)))
    }

    /// Why a disk call failed, where the system told.
    pub fn disk_error(&self) -> Option<DiskError> {
        self.disk.error()
    }

    fn on(alloc: Global, rt: R, disk: Disk) -> FileHost<R>
        ensures { file_host_faults result ≡ no_faults }
    {
        FileHost {
            alloc,
            rt,
            disk,
            sockets: LateSockets::Unopened,
            first: None,
            last: 0,
            disk_faults: 0,
            poll_faults: 0,
            print_faults: 0,
        }
    }

    /// The greatest reading so far, which a clock that can't be read repeats.
    fn latest(&mut self) -> u64
        ensures not_back { last_reading self.old ≤ result }
        ensures kept { last_reading self.new ≡ result }
        ensures faults { file_host_faults self.new ≡ file_host_faults self.old }
    {
        if let Ok(reading) = clock::read(&self.rt, &mut self.first) {
            self.last = self.last.max(reading);
        }
        self.last
    }

    fn count_disk_fault(&mut self)
        ensures faults { file_host_faults self.new ≡ disk_failed (file_host_faults self.old) }
        ensures counts { NoneFell (file_host_faults self.old) (file_host_faults self.new) }
        ensures rose { Rose (file_host_faults self.old).disk (file_host_faults self.new).disk }
        ensures clock { last_reading self.new ≡ last_reading self.old }
    {
        self.disk_faults = self.disk_faults.saturating_add(1);
    }

    fn poll_fault(&mut self) -> PollError
        ensures error { result ≡ PollError.Failed }
        ensures faults { file_host_faults self.new ≡ poll_failed (file_host_faults self.old) }
        ensures clock { last_reading self.new ≡ last_reading self.old }
    {
        self.poll_faults = self.poll_faults.saturating_add(1);
        PollError::Failed
    }
}

impl<R: Files<File = File> + Clock + Print + Net + Drop> FileHost<R> {
    /// What is heard within so many milliseconds.
    fn hear(&mut self, millis: u64) -> Result<What, PollError>
        ensures piece { IfOk result (λ w. piece_len w ≤ 65536) }
        ensures calls_alone { IfOk result (λ w. visit_of w ≡ None) }
        ensures faults { file_host_faults self.new ≡ file_host_faults self.old }
        ensures clock { last_reading self.new ≡ last_reading self.old }
    {
        match self.sockets.opened(self.alloc, &self.rt) {
            Ok(sockets) => sockets.hear(self.alloc, &self.rt, millis),
            Err(e) => Err(e),
        }
    }
}

impl<R: Files<File = File> + Clock + Print + Net + Drop> Host for FileHost<R> {
    ghost use Rattle.wf_file_host.specs.Untold.{untold_counts, untold_only, untold_back, untold_fits};

    ghost world = { λ h. untold };

    ghost faults = { file_host_faults };

    ghost counts_now = { λ h t c told le left. untold_counts told t c };

    ghost only_now = { λ h c d told left. untold_only told c d };

    ghost reads_back = { λ h told. untold_back told };

    ghost fits = { λ h told. untold_fits told };

    fn size(&mut self) -> Result<u64, Failed>
        ensures bound { IfOk result (λ n. n ≤ longest) }
        ensures counts { NoneFell (file_host_faults self.old) (file_host_faults self.new) }
        ensures cause { OnErr result (Rose (file_host_faults self.old).disk
            (file_host_faults self.new).disk) }
        ensures faults_on_ok { OnOk result (file_host_faults self.new ≡ file_host_faults self.old) }
        ensures faults_on_err { OnErr result (file_host_faults self.new
            ≡ disk_failed (file_host_faults self.old)) }
        ensures clock { last_reading self.new ≡ last_reading self.old }
    {
        let answer = self.disk.size(&self.rt);
        if answer.is_err() {
            self.count_disk_fault();
        }
        answer
    }

    fn read_at(&mut self, at: u64, into: &mut [u8]) -> Result<usize, Failed>
        ensures bound { IfOk result (λ n. n ≤ length into.old) }
        ensures counts { NoneFell (file_host_faults self.old) (file_host_faults self.new) }
        ensures cause { OnErr result (Rose (file_host_faults self.old).disk
            (file_host_faults self.new).disk) }
        ensures faults_on_ok { OnOk result (file_host_faults self.new ≡ file_host_faults self.old) }
        ensures faults_on_err { OnErr result (file_host_faults self.new
            ≡ disk_failed (file_host_faults self.old)) }
        ensures clock { last_reading self.new ≡ last_reading self.old }
    {
        let answer = self.disk.read_at(&self.rt, at, into);
        if answer.is_err() {
            self.count_disk_fault();
        }
        answer
    }

    fn write_at(&mut self, at: u64, bytes: &[u8]) -> Result<(), Failed>
        requires { at ≤ longest }
        ensures room { OnOk result (at + length bytes.now ≤ longest) }
        ensures counts { NoneFell (file_host_faults self.old) (file_host_faults self.new) }
        ensures cause { OnErr result (Rose (file_host_faults self.old).disk
            (file_host_faults self.new).disk) }
        ensures faults_on_ok { OnOk result (file_host_faults self.new ≡ file_host_faults self.old) }
        ensures faults_on_err { OnErr result (file_host_faults self.new
            ≡ disk_failed (file_host_faults self.old)) }
        ensures clock { last_reading self.new ≡ last_reading self.old }
    {
        let answer = self.disk.write_at(&self.rt, at, bytes);
        if answer.is_err() {
            self.count_disk_fault();
        }
        answer
    }

    fn sync(&mut self) -> Result<(), Failed>
        ensures counts { NoneFell (file_host_faults self.old) (file_host_faults self.new) }
        ensures cause { OnErr result (Rose (file_host_faults self.old).disk
            (file_host_faults self.new).disk) }
        ensures faults_on_ok { OnOk result (file_host_faults self.new ≡ file_host_faults self.old) }
        ensures faults_on_err { OnErr result (file_host_faults self.new
            ≡ disk_failed (file_host_faults self.old)) }
        ensures clock { last_reading self.new ≡ last_reading self.old }
    {
        let answer = self.disk.sync(&self.rt);
        if answer.is_err() {
            self.count_disk_fault();
        }
        answer
    }

    /// The greatest reading so far. A clock that can't be read repeats its last reading, or gives 0 before the first.
    fn now(&mut self) -> Result<u64, OutOfMemory>
        ensures succeeds { IsOk result }
        ensures not_back { IfOk result (λ t. last_reading self.old ≤ t) }
        ensures kept { IfOk result (λ t. last_reading self.new ≡ t) }
        ensures faults { file_host_faults self.new ≡ file_host_faults self.old }
    {
        Ok(self.latest())
    }

    /// Begins to connect. A host that isn't found, or can't be reached, is heard as broken by the next poll. Where the system has no
    /// sockets at all, each poll fails.
    fn start(&mut self, call: u64, to: &Address, bytes: &[u8]) -> Result<(), OutOfMemory>
        ensures counts { NoneFell (file_host_faults self.old) (file_host_faults self.new) }
        ensures faults { file_host_faults self.new ≡ file_host_faults self.old }
        ensures clock { last_reading self.new ≡ last_reading self.old }
    {
        match self.sockets.opened(self.alloc, &self.rt) {
            Ok(sockets) => sockets.start(self.alloc, &self.rt, call, to, bytes),
            Err(PollError::Failed) => Ok(()),
            Err(PollError::OutOfMemory) => Err(OutOfMemory),
        }
    }

    /// Waits for the sockets, and for the clock where nothing comes.
    fn poll(&mut self, until: u64) -> Result<Heard, PollError>
        ensures piece { IfOk result (λ h. piece_len h.what ≤ 65536) }
        ensures calls_alone { IfOk result (λ h. visit_of h.what ≡ None) }
        ensures counts { NoneFell (file_host_faults self.old) (file_host_faults self.new) }
        ensures cause { IsErrOf result PollError.Failed
            → Rose (file_host_faults self.old).poll (file_host_faults self.new).poll }
        ensures faults_on_ok { OnOk result (file_host_faults self.new ≡ file_host_faults self.old) }
        ensures faults_on_failed { IsErrOf result PollError.Failed
            → file_host_faults self.new ≡ poll_failed (file_host_faults self.old) }
        ensures faults_on_out { IsErrOf result PollError.OutOfMemory
            → file_host_faults self.new ≡ file_host_faults self.old }
        ensures due { IfOk result (λ h. h.what ≡ Nothing → until ≤ h.reading) }
        ensures not_back { IfOk result (λ h. last_reading self.old ≤ h.reading) }
        ensures kept { IfOk result (λ h. last_reading self.new ≡ h.reading) }
    {
        let mut pause = 0;
        for _ in 0..u64::MAX {
            let what = match self.hear(pause) {
                Ok(what) => what,
                Err(PollError::OutOfMemory) => return Err(PollError::OutOfMemory),
                Err(PollError::Failed) => break,
            };
            let reading = self.latest();
            if reading >= until || !matches!(what, What::Nothing) {
                return Ok(Heard { reading, what });
            }
            pause = until - reading;
        }
        Err(self.poll_fault())
    }

    /// Forgets a call, and closes its connection.
    fn drop_call(&mut self, call: u64) -> Result<(), OutOfMemory>
        ensures succeeds { IsOk result }
        ensures counts { NoneFell (file_host_faults self.old) (file_host_faults self.new) }
        ensures faults { file_host_faults self.new ≡ file_host_faults self.old }
        ensures clock { last_reading self.new ≡ last_reading self.old }
    {
        self.sockets.drop_call(call);
        Ok(())
    }

    fn print(&mut self, bytes: &[u8]) -> Result<usize, Failed>
        requires { 1 ≤ length bytes.now }
        ensures bound { IfOk result (λ n. n ≤ length bytes.now) }
        ensures counts { NoneFell (file_host_faults self.old) (file_host_faults self.new) }
        ensures cause { OnErr result (Rose (file_host_faults self.old).print
            (file_host_faults self.new).print) }
        ensures faults_on_ok { OnOk result (file_host_faults self.new ≡ file_host_faults self.old) }
        ensures faults_on_err { OnErr result (file_host_faults self.new
            ≡ print_failed (file_host_faults self.old)) }
        ensures clock { last_reading self.new ≡ last_reading self.old }
    {
        for _ in 0..u64::MAX {
            match self.rt.write_some(bytes) {
                Ok(count) => return Ok(count),
                Err(e) if e.kind() == io::ErrorKind::Interrupted => {}
                Err(_) => break,
            }
        }
        self.print_faults = self.print_faults.saturating_add(1);
        Err(Failed)
    }
}
