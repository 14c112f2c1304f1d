// How far a host in memory has come in its plan.
ghost use Rattle.std.specs.Prelude.{◌≡◌};
ghost use Rattle.wf_host.specs.Stage.{call_fails, after_call, after_change, after_reading, reading, fitting, poll_reading};

use crate::{Service, What};
use std::marker::Model;

/// The clock and the failures of a plan, and how much of them has passed.
#[derive(Drop)]
pub(crate) struct Progress {
    clock: Vec<u64>,
    ticks: usize,
    fail: Vec<u64>,
    calls: u64,
    stop: Option<u64>,
    changes: u64,
    print_room: Option<u64>,
    services: Vec<Service>,
}

impl Model for Progress {
    ghost use Rattle.wf_host.specs.Stage.{Stage};

    ghost Value = { Stage };

    ghost view = { λ p. record { fail = p.fail.items; stop = p.stop; clock = p.clock.items; print_room = p.print_room; services = p.services.items; calls = p.calls; changes = p.changes; ticks = p.ticks } };
}

impl Progress {
    /// What is planned, with no call made yet.
    pub(crate) fn new(
        clock: Vec<u64>,
        fail: Vec<u64>,
        stop: Option<u64>,
        print_room: Option<u64>,
        services: Vec<Service>,
    ) -> Progress
        ensures { result ≡ record {
          fail = fail.items;
          stop = stop;
          clock = clock.items;
          print_room = print_room;
          services = services.items;
          calls = 0;
          changes = 0;
          ticks = 0;
        } }
    {
        Progress {
            clock,
            ticks: 0,
            fail,
            calls: 0,
            stop,
            changes: 0,
            print_room,
            services,
        }
    }

    /// Counts a call, and says whether it fails if it can.
    pub(crate) fn begin_call(&mut self) -> bool
        ensures fails { result ≡ call_fails self.old }
        ensures counts { self.new ≡ after_call self.old }
    {
        self.calls = self.calls.saturating_add(1);
        let stopped = match self.stop {
            Some(count) => self.changes >= count,
            None => false,
        };
        stopped || self.fail.contains(&self.calls)
    }

    /// Counts a write or a sync that was carried out.
    pub(crate) fn count_change(&mut self)
        ensures { self.new ≡ after_change self.old }
    {
        self.changes = self.changes.saturating_add(1);
    }

    /// The clock's next reading.
    pub(crate) fn reading(&self) -> u64
        ensures { result ≡ reading self.now }
    {
        let last = self.clock.len().saturating_sub(1);
        match self.clock.get(self.ticks.min(last)) {
            Some(reading) => *reading,
            None => 0,
        }
    }

    /// The reading of a poll until this moment, which hears something or nothing.
    pub(crate) fn poll_reading(&self, until: u64, what: &What) -> u64
        ensures { result ≡ poll_reading self.now until what.now }
    {
        let reading = self.reading();
        match what {
            What::Nothing if self.ticks >= self.clock.len() => reading.max(until),
            _ => reading,
        }
    }

    /// Who answers calls.
    pub(crate) fn services(&self) -> &[Service]
        ensures { result.now ≡ self.now.services }
    {
        &self.services
    }

    /// Counts a reading that was taken.
    pub(crate) fn count_reading(&mut self)
        ensures { self.new ≡ after_reading self.old }
    {
        self.ticks = self.ticks.saturating_add(1);
    }

    /// How many of so many bytes are taken for printing, after so many others.
    pub(crate) fn fitting(&self, printed: usize, count: usize) -> usize
        ensures { result ≡ fitting self.now.print_room printed count }
    {
        match self.print_room {
            Some(room) => {
                let left = room.saturating_sub(printed as u64);
                (count as u64).min(left) as usize
            }
            None => count,
        }
    }
}
