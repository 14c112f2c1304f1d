// A source in memory.
ghost use Rattle.std.specs.Prelude.{◌≡◌, ◌≤◌, length, drop};

use crate::moves::copy_from;
use crate::{Failed, Source};
use std::alloc::Global;
use wf_value::OutOfMemory;

/// Bytes in memory, and the numbers of the reads that fail. It tells what it has left.
#[derive(Drop)]
pub struct MemSource {
    bytes: Vec<u8>,
    at: usize,
    fail: Vec<u64>,
    reads: u64,
    faults: u64,
    ghost within: { at ≤ length bytes.items },
}

impl MemSource {
    ghost use Rattle.std.specs.Prelude.{◌≡◌, IfOk};
    ghost use Rattle.wf_host.specs.MemSource.{source_left, source_fail, source_reads, source_faults};

    /// A source of these bytes. The reads of these numbers fail, where the first read has the number 1.
    pub fn new(alloc: Global, bytes: &[u8], fail: &[u64]) -> Result<MemSource, OutOfMemory>
        ensures left { IfOk result (λ s. source_left s ≡ bytes.now) }
        ensures fail { IfOk result (λ s. source_fail s ≡ fail.now) }
        ensures reads { IfOk result (λ s. source_reads s ≡ 0) }
        ensures faults { IfOk result (λ s. source_faults s ≡ 0) }
    {
        let bytes = Vec::from_slice(alloc, bytes)?;
        let fail = Vec::from_slice(alloc, fail)?;
        Ok(MemSource {
            bytes,
            at: 0,
            fail,
            reads: 0,
            faults: 0,
        })
    }
}

impl Source for MemSource {
    ghost use Rattle.std.specs.Prelude.{◌≡◌, ◌≤◌, ◌<◌, ◌+◌, ◌-◌, ◌^◌, ◌++◌, ◌↔◌, min, length, take, drop, IfOk, OnErr, OnOk, IsErr, IsTrue, Some};
    ghost use Rattle.std.specs.Io.KnownBytes.{IsAtEnd};
    ghost use Rattle.wf_host.specs.World.{Rose, next_count};
    ghost use Rattle.wf_host.specs.Source.{HoldsRest};
    ghost use Rattle.wf_host.specs.MemSource.{source_left, source_fail, source_reads, source_faults, read_fails};

    ghost left = { λ s. Some (source_left s) };

    ghost faults = { source_faults };

    /// Gives as much as there is room for and is left, and fails exactly where the number of the read is to fail.
    fn read(&mut self, into: &mut [u8]) -> Result<usize, Failed>
        ensures bound { IfOk result (λ n. n ≤ length into.old) }
        ensures bytes { IfOk result (λ n. HoldsRest (Some (source_left self.old))
            (Some (source_left self.new)) (take n into.new)) }
        ensures end { IfOk result (λ n. n ≡ 0 → 0 < length into.old
            → IsAtEnd (Some (source_left self.old))) }
        ensures stays { OnErr result (Some (source_left self.new) ≡ Some (source_left self.old)) }
        ensures counts { source_faults self.old ≤ source_faults self.new }
        ensures cause { OnErr result (Rose (source_faults self.old) (source_faults self.new)) }
        ensures fails { IsErr result ↔ IsTrue (read_fails self.old) }
        ensures most { IfOk result (λ n. n ≡ min (length into.old)
            (length (source_left self.old))) }
        ensures filled { IfOk result (λ n. into.new
            ≡ take n (source_left self.old) ++ drop n into.old) }
        ensures rises { OnErr result (source_faults self.new
            ≡ next_count (source_faults self.old)) }
        ensures rests { OnOk result (source_faults self.new ≡ source_faults self.old) }
        ensures numbers { source_reads self.new ≡ next_count (source_reads self.old) }
        ensures plan { source_fail self.new ≡ source_fail self.old }
    {
        self.reads = self.reads.saturating_add(1);
        if self.fail.contains(&self.reads) {
            self.faults = self.faults.saturating_add(1);
            return Err(Failed);
        }
        let count = copy_from(&self.bytes, self.at as u64, into);
        self.at += count;
        Ok(count)
    }
}
