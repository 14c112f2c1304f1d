// A host in memory, by a plan.
ghost use Rattle.std.specs.Prelude.{◌≡◌};
ghost use Rattle.wf_host.specs.Memory.{prints};
ghost use Rattle.wf_host.specs.Ahead.{ahead};

use crate::host::LONGEST;
use crate::memory::CallRecord;
use crate::moves::{copy_from, take_down};
use crate::outlook::Outlook;
use crate::progress::Progress;
use crate::{Address, Deed, Failed, Heard, Host, Plan, PollError};
use std::alloc::{AllocError, Global};
use wf_value::{Bytes, OutOfMemory};

/// A host in memory. It tells what it stands for from a record of its calls.
pub struct MemHost {
    alloc: Global,
    log: CallRecord,
    printed: Vec<u8>,
    progress: Progress,
    outlook: Outlook,
    disk_faults: u64,
    poll_faults: u64,
    print_faults: u64,
    short: u64,
    ghost shown: { printed.items ≡ prints log.deeds.items },
    ghost foreseen: { outlook ≡ ahead progress.services log.deeds.items },
}

// Written, and not derived: it is one call wherever a host is let go.
impl Drop for MemHost {
    fn drop(self) {
        let MemHost {
            alloc: _,
            log: _,
            printed: _,
            progress: _,
            outlook: _,
            disk_faults: _,
            poll_faults: _,
            print_faults: _,
            short: _,
        } = self;
    }
}

impl MemHost {
    ghost use Rattle.std.specs.Prelude.{◌≡◌, [], IfOk, true, false};
    ghost use Rattle.wf_host.specs.World.{Only, NoneFell, no_faults, disk_failed, poll_failed, print_failed};
    ghost use Rattle.wf_host.specs.MemHost.{mem_world, mem_stable, mem_stage, mem_faults, mem_short, first_stage};

    /// A host with the plan's file, all of it on the disk.
    pub fn new(alloc: Global, plan: Plan) -> Result<MemHost, OutOfMemory>
        ensures seen { IfOk result (λ h. (mem_world h).seen ≡ plan.image.items) }
        ensures settled { IfOk result (λ h. Only plan.image.items (mem_world h).may_leave) }
        ensures stable { IfOk result (λ h. mem_stable h ≡ plan.image.items) }
        ensures deeds { IfOk result (λ h. (mem_world h).deeds ≡ []) }
        ensures tells { IfOk result (λ h. (mem_world h).tells ≡ true) }
        ensures stage { IfOk result (λ h. mem_stage h ≡ first_stage plan) }
        ensures faults { IfOk result (λ h. mem_faults h ≡ no_faults) }
        ensures short { IfOk result (λ h. mem_short h ≡ 0) }
    {
        let log = CallRecord::new(alloc, plan.image)?;
        Ok(MemHost {
            alloc,
            log,
            printed: Vec::new(alloc),
            progress: Progress::new(
                plan.clock,
                plan.fail,
                plan.stop,
                plan.print_room,
                plan.services,
            ),
            outlook: Outlook::new(alloc),
            disk_faults: 0,
            poll_faults: 0,
            print_faults: 0,
            short: 0,
        })
    }

    /// The file as it reads.
    pub fn image(&self) -> &[u8]
        ensures { result.now ≡ (mem_world self.now).seen }
    {
        self.log.image()
    }

    /// The deeds so far.
    pub fn deeds(&self) -> &[Deed]
        ensures { result.now ≡ (mem_world self.now).deeds }
    {
        self.log.deeds()
    }

    /// What was printed.
    pub fn printed(&self) -> &[u8]
        ensures { result.now ≡ prints (mem_world self.now).deeds }
    {
        &self.printed
    }

    /// How often a disk call or a print found no memory for the file or the record, or a write no room in the
    /// longest file.
    pub fn short(&self) -> u64
        ensures { result ≡ mem_short self.now }
    {
        self.short
    }

    /// What a crash leaves: all that was written, or all that was synced.
    pub fn crash(self, alloc: Global, all_written: bool) -> Result<Vec<u8>, OutOfMemory>
        ensures left { IfOk result (λ v. (mem_world self).may_leave v.items) }
        ensures written { IfOk result (λ v. all_written ≡ true → v.items ≡ (mem_world self).seen) }
        ensures synced { IfOk result (λ v. all_written ≡ false → v.items ≡ mem_stable self) }
    {
        let left = if all_written {
            self.log.written(alloc)
        } else {
            self.log.synced(alloc)
        };
        Ok(left?)
    }

    fn disk_fault(&mut self) -> Failed
        ensures log { self.new.log ≡ self.old.log }
        ensures stage { mem_stage self.new ≡ mem_stage self.old }
        ensures faults { mem_faults self.new ≡ disk_failed (mem_faults self.old) }
        ensures counts { NoneFell (mem_faults self.old) (mem_faults self.new) }
        ensures short { mem_short self.new ≡ mem_short self.old }
    {
        self.disk_faults = self.disk_faults.saturating_add(1);
        Failed
    }

    fn poll_fault(&mut self) -> PollError
        ensures error { result ≡ PollError.Failed }
        ensures log { self.new.log ≡ self.old.log }
        ensures stage { mem_stage self.new ≡ mem_stage self.old }
        ensures faults { mem_faults self.new ≡ poll_failed (mem_faults self.old) }
        ensures counts { NoneFell (mem_faults self.old) (mem_faults self.new) }
        ensures short { mem_short self.new ≡ mem_short self.old }
    {
        self.poll_faults = self.poll_faults.saturating_add(1);
        PollError::Failed
    }

    fn print_fault(&mut self) -> Failed
        ensures log { self.new.log ≡ self.old.log }
        ensures stage { mem_stage self.new ≡ mem_stage self.old }
        ensures faults { mem_faults self.new ≡ print_failed (mem_faults self.old) }
        ensures counts { NoneFell (mem_faults self.old) (mem_faults self.new) }
        ensures short { mem_short self.new ≡ mem_short self.old }
    {
        self.print_faults = self.print_faults.saturating_add(1);
        Failed
    }
}

impl Host for MemHost {
    ghost use Rattle.std.specs.Prelude.{◌≡◌, ◌≤◌, ◌+◌, ◌-◌, ◌++◌, ◌∷◌, [], ◌⊎◌, ◌↔◌, min, length, take, drop, IsTrue, IfOk, OnOk, OnErr, IsErr, IsErrOf, MatchResult, None};
    ghost use Rattle.wf_host.specs.World.{longest, piece_len, visit_of, Told, Holds, Torn, Same, Only, Elapses, Rose, NoneFell, disk_failed, poll_failed, print_failed};
    ghost use Rattle.wf_host.specs.Stage.{call_fails, after_call, after_change, after_reading, reading, fitting, next_heard};
    ghost use Rattle.wf_host.specs.MemHost.{mem_world, mem_stable, mem_stage, mem_faults, mem_short};
    ghost use Rattle.wf_host.specs.MemLaws.{mem_counts_now, mem_only_now, mem_reads_back, mem_fits};
    ghost use Rattle.wf_host.specs.declared.data.Deed.TheVariants.{Start, Poll, Now, Drop, Print};

    ghost world = { mem_world };

    ghost faults = { mem_faults };

    ghost counts_now = { λ h t c told le left. mem_counts_now h t c le left };

    ghost only_now = { λ h c d told left. mem_only_now h c d left };

    ghost reads_back = { λ h told. mem_reads_back h };

    ghost fits = { λ h told. mem_fits h };

    /// Fails exactly where the plan says.
    fn size(&mut self) -> Result<u64, Failed>
        ensures value { Told (mem_world self.old)
            (IfOk result (λ n. n ≡ length (mem_world self.old).seen)) }
        ensures bound { IfOk result (λ n. n ≤ longest) }
        ensures seen { Told (mem_world self.old) ((mem_world self.new).seen
            ≡ (mem_world self.old).seen) }
        ensures time { Told (mem_world self.old)
            (Elapses Same [] (mem_world self.old) (mem_world self.new)) }
        ensures tells { (mem_world self.new).tells ≡ (mem_world self.old).tells }
        ensures counts { NoneFell (mem_faults self.old) (mem_faults self.new) }
        ensures cause { OnErr result (Rose (mem_faults self.old).disk (mem_faults self.new).disk) }
        ensures fails { IsErr result ↔ IsTrue (call_fails (mem_stage self.old)) }
        ensures faults_on_ok { OnOk result (mem_faults self.new ≡ mem_faults self.old) }
        ensures faults_on_err { OnErr result (mem_faults self.new
            ≡ disk_failed (mem_faults self.old)) }
        ensures short { mem_short self.new ≡ mem_short self.old }
        ensures stage { mem_stage self.new ≡ after_call (mem_stage self.old) }
        ensures stable { mem_stable self.new ≡ mem_stable self.old }
    {
        if self.progress.begin_call() {
            return Err(self.disk_fault());
        }
        Ok(self.log.image().len() as u64)
    }

    /// Fails exactly where the plan says.
    fn read_at(&mut self, at: u64, into: &mut [u8]) -> Result<usize, Failed>
        requires { at ≤ longest }
        ensures count { Told (mem_world self.old)
            (IfOk result (λ n. n ≡ min (length into.old) (length (mem_world self.old).seen - at))) }
        ensures bytes { Told (mem_world self.old)
            (IfOk result (λ n. into.new
            ≡ take n (drop at (mem_world self.old).seen) ++ drop n into.old)) }
        ensures bound { IfOk result (λ n. n ≤ length into.old) }
        ensures seen { Told (mem_world self.old) ((mem_world self.new).seen
            ≡ (mem_world self.old).seen) }
        ensures time { Told (mem_world self.old)
            (Elapses Same [] (mem_world self.old) (mem_world self.new)) }
        ensures tells { (mem_world self.new).tells ≡ (mem_world self.old).tells }
        ensures counts { NoneFell (mem_faults self.old) (mem_faults self.new) }
        ensures cause { OnErr result (Rose (mem_faults self.old).disk (mem_faults self.new).disk) }
        ensures fails { IsErr result ↔ IsTrue (call_fails (mem_stage self.old)) }
        ensures faults_on_ok { OnOk result (mem_faults self.new ≡ mem_faults self.old) }
        ensures faults_on_err { OnErr result (mem_faults self.new
            ≡ disk_failed (mem_faults self.old)) }
        ensures short { mem_short self.new ≡ mem_short self.old }
        ensures stage { mem_stage self.new ≡ after_call (mem_stage self.old) }
        ensures stable { mem_stable self.new ≡ mem_stable self.old }
    {
        if self.progress.begin_call() {
            return Err(self.disk_fault());
        }
        Ok(copy_from(self.log.image(), at, into))
    }

    /// Fails exactly where the plan says, or without memory, or past the longest file. Then the file stays.
    fn write_at(&mut self, at: u64, bytes: &[u8]) -> Result<(), Failed>
        requires most { at ≤ longest }
        requires inside { Told (mem_world self.old) (at ≤ length (mem_world self.old).seen) }
        ensures written { Told (mem_world self.old)
            (OnOk result (Holds (mem_world self.old).seen at bytes.now (mem_world self.new).seen)) }
        ensures room { OnOk result (at + length bytes.now ≤ longest) }
        ensures time { Told (mem_world self.old)
            (Elapses (Torn at (length bytes.now)) [] (mem_world self.old) (mem_world self.new)) }
        ensures tells { (mem_world self.new).tells ≡ (mem_world self.old).tells }
        ensures counts { NoneFell (mem_faults self.old) (mem_faults self.new) }
        ensures cause { OnErr result (Rose (mem_faults self.old).disk (mem_faults self.new).disk) }
        ensures planned { IsTrue (call_fails (mem_stage self.old)) → IsErr result }
        ensures only { OnErr result (IsTrue (call_fails (mem_stage self.old))
            ⊎ Rose (mem_short self.old) (mem_short self.new)) }
        ensures short_on_ok { OnOk result (mem_short self.new ≡ mem_short self.old) }
        ensures short_if_planned { IsTrue (call_fails (mem_stage self.old))
            → mem_short self.new ≡ mem_short self.old }
        ensures faults_on_ok { OnOk result (mem_faults self.new ≡ mem_faults self.old) }
        ensures faults_on_err { OnErr result (mem_faults self.new
            ≡ disk_failed (mem_faults self.old)) }
        ensures stage_on_ok { OnOk result (mem_stage self.new
            ≡ after_change (after_call (mem_stage self.old))) }
        ensures stage_on_err { OnErr result (mem_stage self.new ≡ after_call (mem_stage self.old)) }
        ensures seen_on_err { OnErr result ((mem_world self.new).seen ≡ (mem_world self.old).seen) }
        ensures stable { mem_stable self.new ≡ mem_stable self.old }
    {
        if self.progress.begin_call() {
            return Err(self.disk_fault());
        }
        if bytes.len() as u64 > LONGEST - at {
            self.short = self.short.saturating_add(1);
            return Err(self.disk_fault());
        }
        match self.log.write(self.alloc, at as usize, bytes) {
            Ok(()) => {
                self.progress.count_change();
                Ok(())
            }
            Err(AllocError) => {
                self.short = self.short.saturating_add(1);
                Err(self.disk_fault())
            }
        }
    }

    /// Fails exactly where the plan says, or without memory.
    fn sync(&mut self) -> Result<(), Failed>
        ensures durable { Told (mem_world self.old)
            (OnOk result (Only (mem_world self.old).seen (mem_world self.new).may_leave)) }
        ensures seen { Told (mem_world self.old) ((mem_world self.new).seen
            ≡ (mem_world self.old).seen) }
        ensures time { Told (mem_world self.old)
            (Elapses Same [] (mem_world self.old) (mem_world self.new)) }
        ensures tells { (mem_world self.new).tells ≡ (mem_world self.old).tells }
        ensures counts { NoneFell (mem_faults self.old) (mem_faults self.new) }
        ensures cause { OnErr result (Rose (mem_faults self.old).disk (mem_faults self.new).disk) }
        ensures planned { IsTrue (call_fails (mem_stage self.old)) → IsErr result }
        ensures only { OnErr result (IsTrue (call_fails (mem_stage self.old))
            ⊎ Rose (mem_short self.old) (mem_short self.new)) }
        ensures short_on_ok { OnOk result (mem_short self.new ≡ mem_short self.old) }
        ensures short_if_planned { IsTrue (call_fails (mem_stage self.old))
            → mem_short self.new ≡ mem_short self.old }
        ensures faults_on_ok { OnOk result (mem_faults self.new ≡ mem_faults self.old) }
        ensures faults_on_err { OnErr result (mem_faults self.new
            ≡ disk_failed (mem_faults self.old)) }
        ensures stage_on_ok { OnOk result (mem_stage self.new
            ≡ after_change (after_call (mem_stage self.old))) }
        ensures stage_on_err { OnErr result (mem_stage self.new ≡ after_call (mem_stage self.old)) }
        ensures stable_on_ok { OnOk result (mem_stable self.new ≡ (mem_world self.old).seen) }
        ensures stable_on_err { OnErr result (mem_stable self.new ≡ mem_stable self.old) }
    {
        if self.progress.begin_call() {
            return Err(self.disk_fault());
        }
        match self.log.sync() {
            Ok(()) => {
                self.progress.count_change();
                Ok(())
            }
            Err(AllocError) => {
                self.short = self.short.saturating_add(1);
                Err(self.disk_fault())
            }
        }
    }

    /// The clock's next reading. It fails only without memory, and then takes no reading.
    fn now(&mut self) -> Result<u64, OutOfMemory>
        ensures seen { Told (mem_world self.old) ((mem_world self.new).seen
            ≡ (mem_world self.old).seen) }
        ensures time { Told (mem_world self.old)
            (MatchResult result (λ t. Elapses Same (Now t ∷ []) (mem_world self.old)
            (mem_world self.new))
            (λ _. Elapses Same [] (mem_world self.old) (mem_world self.new))) }
        ensures tells { (mem_world self.new).tells ≡ (mem_world self.old).tells }
        ensures counts { NoneFell (mem_faults self.old) (mem_faults self.new) }
        ensures reading { IfOk result (λ t. t ≡ reading (mem_stage self.old)) }
        ensures faults { mem_faults self.new ≡ mem_faults self.old }
        ensures short { mem_short self.new ≡ mem_short self.old }
        ensures stage_on_ok { OnOk result (mem_stage self.new
            ≡ after_reading (after_call (mem_stage self.old))) }
        ensures stage_on_err { OnErr result (mem_stage self.new ≡ after_call (mem_stage self.old)) }
        ensures stable { mem_stable self.new ≡ mem_stable self.old }
    {
        // A reading of the clock can't fail, but it counts as a call.
        let _fails = self.progress.begin_call();
        let reading = self.progress.reading();
        self.log.act(Deed::Now(reading))?;
        self.progress.count_reading();
        Ok(reading)
    }

    /// Starts a call, which counts as a call of the host that can't fail by the plan. It fails only without memory.
    fn start(&mut self, call: u64, to: &Address, bytes: &[u8]) -> Result<(), OutOfMemory>
        ensures seen { Told (mem_world self.old) ((mem_world self.new).seen ≡ (mem_world self.old).seen) }
        ensures time { Told (mem_world self.old) (MatchResult result
            (λ _. Elapses Same (Start call to.now bytes.now ∷ []) (mem_world self.old) (mem_world self.new))
            (λ _. Elapses Same [] (mem_world self.old) (mem_world self.new))) }
        ensures tells { (mem_world self.new).tells ≡ (mem_world self.old).tells }
        ensures counts { NoneFell (mem_faults self.old) (mem_faults self.new) }
        ensures faults { mem_faults self.new ≡ mem_faults self.old }
        ensures short { mem_short self.new ≡ mem_short self.old }
        ensures stage { mem_stage self.new ≡ after_call (mem_stage self.old) }
        ensures stable { mem_stable self.new ≡ mem_stable self.old }
    {
        let _fails = self.progress.begin_call();
        let services = self.progress.services();
        let speaker = self
            .outlook
            .answer(self.alloc, services, self.log.deeds(), call, to)?;
        let deed = Deed::Start(call, to.copy()?, Bytes::new(self.alloc, bytes)?);
        self.outlook.start(&mut self.log, speaker, deed)?;
        Ok(())
    }

    /// Hears what the plan says. It fails exactly where the plan says, or without memory, and then takes no reading.
    fn poll(&mut self, until: u64) -> Result<Heard, PollError>
        ensures piece { IfOk result (λ h. piece_len h.what ≤ 65536) }
        ensures calls_alone { IfOk result (λ h. visit_of h.what ≡ None) }
        ensures seen { Told (mem_world self.old) ((mem_world self.new).seen ≡ (mem_world self.old).seen) }
        ensures time { Told (mem_world self.old) (MatchResult result
            (λ h. Elapses Same (Poll until h ∷ []) (mem_world self.old) (mem_world self.new))
            (λ _. Elapses Same [] (mem_world self.old) (mem_world self.new))) }
        ensures tells { (mem_world self.new).tells ≡ (mem_world self.old).tells }
        ensures counts { NoneFell (mem_faults self.old) (mem_faults self.new) }
        ensures cause { IsErrOf result PollError.Failed → Rose (mem_faults self.old).poll (mem_faults self.new).poll }
        ensures heard { IfOk result (λ h. h ≡ next_heard (mem_stage self.old) (mem_world self.old).deeds until) }
        ensures fails { IsErrOf result PollError.Failed ↔ IsTrue (call_fails (mem_stage self.old)) }
        ensures faults_on_ok { OnOk result (mem_faults self.new ≡ mem_faults self.old) }
        ensures faults_on_failed { IsErrOf result PollError.Failed → mem_faults self.new ≡ poll_failed (mem_faults self.old) }
        ensures faults_on_out { IsErrOf result PollError.OutOfMemory → mem_faults self.new ≡ mem_faults self.old }
        ensures short { mem_short self.new ≡ mem_short self.old }
        ensures stage_on_ok { OnOk result (mem_stage self.new ≡ after_reading (after_call (mem_stage self.old))) }
        ensures stage_on_err { OnErr result (mem_stage self.new ≡ after_call (mem_stage self.old)) }
        ensures stable { mem_stable self.new ≡ mem_stable self.old }
    {
        if self.progress.begin_call() {
            return Err(self.poll_fault());
        }
        let Ok(what) = self.outlook.next_thing(self.alloc) else {
            return Err(PollError::OutOfMemory);
        };
        let Ok(copy) = what.copy() else {
            return Err(PollError::OutOfMemory);
        };
        let reading = self.progress.poll_reading(until, &what);
        let deed = Deed::Poll(
            until,
            Heard {
                reading,
                what: copy,
            },
        );
        match self.log.act(deed) {
            Ok(()) => {
                self.outlook.count_poll();
                self.progress.count_reading();
                Ok(Heard { reading, what })
            }
            Err(AllocError) => Err(PollError::OutOfMemory),
        }
    }

    /// Forgets a call. It fails only without memory.
    fn drop_call(&mut self, call: u64) -> Result<(), OutOfMemory>
        ensures seen { Told (mem_world self.old) ((mem_world self.new).seen ≡ (mem_world self.old).seen) }
        ensures time { Told (mem_world self.old) (MatchResult result
            (λ _. Elapses Same (Drop call ∷ []) (mem_world self.old) (mem_world self.new))
            (λ _. Elapses Same [] (mem_world self.old) (mem_world self.new))) }
        ensures tells { (mem_world self.new).tells ≡ (mem_world self.old).tells }
        ensures counts { NoneFell (mem_faults self.old) (mem_faults self.new) }
        ensures faults { mem_faults self.new ≡ mem_faults self.old }
        ensures short { mem_short self.new ≡ mem_short self.old }
        ensures stage { mem_stage self.new ≡ after_call (mem_stage self.old) }
        ensures stable { mem_stable self.new ≡ mem_stable self.old }
    {
        let _fails = self.progress.begin_call();
        self.log.act(Deed::Drop(call))?;
        self.outlook.drop_call(call);
        Ok(())
    }

    /// Takes as many bytes as the plan has room for. It fails exactly where the plan says, or without memory.
    fn print(&mut self, bytes: &[u8]) -> Result<usize, Failed>
        requires { 1 ≤ length bytes.now }
        ensures bound { IfOk result (λ n. n ≤ length bytes.now) }
        ensures seen { Told (mem_world self.old) ((mem_world self.new).seen
            ≡ (mem_world self.old).seen) }
        ensures time { Told (mem_world self.old)
            (MatchResult result (λ n. Elapses Same (Print (take n bytes.now) ∷ [])
            (mem_world self.old) (mem_world self.new))
            (λ _. Elapses Same [] (mem_world self.old) (mem_world self.new))) }
        ensures tells { (mem_world self.new).tells ≡ (mem_world self.old).tells }
        ensures counts { NoneFell (mem_faults self.old) (mem_faults self.new) }
        ensures cause { OnErr result (Rose (mem_faults self.old).print
            (mem_faults self.new).print) }
        ensures taken { IfOk result (λ n. n ≡ fitting (mem_stage self.old).print_room
            (length (prints (mem_world self.old).deeds)) (length bytes.now)) }
        ensures planned { IsTrue (call_fails (mem_stage self.old)) → IsErr result }
        ensures only { OnErr result (IsTrue (call_fails (mem_stage self.old))
            ⊎ Rose (mem_short self.old) (mem_short self.new)) }
        ensures short_on_ok { OnOk result (mem_short self.new ≡ mem_short self.old) }
        ensures short_if_planned { IsTrue (call_fails (mem_stage self.old))
            → mem_short self.new ≡ mem_short self.old }
        ensures faults_on_ok { OnOk result (mem_faults self.new ≡ mem_faults self.old) }
        ensures faults_on_err { OnErr result (mem_faults self.new
            ≡ print_failed (mem_faults self.old)) }
        ensures stage { mem_stage self.new ≡ after_call (mem_stage self.old) }
        ensures stable { mem_stable self.new ≡ mem_stable self.old }
    {
        if self.progress.begin_call() {
            return Err(self.print_fault());
        }
        let count = self.progress.fitting(self.printed.len(), bytes.len());
        match take_down(
            self.alloc,
            &mut self.log,
            &mut self.printed,
            &bytes[..count],
        ) {
            Ok(()) => Ok(count),
            Err(AllocError) => {
                self.short = self.short.saturating_add(1);
                Err(self.print_fault())
            }
        }
    }
}
