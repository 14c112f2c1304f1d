// What the services of a plan have still to tell.
ghost use Rattle.std.specs.Prelude.{◌≡◌, ◌++◌, ◌∷◌, [], take, drop, option_copied, option_to_list, IfOk, OnOk, OnErr, MatchResult, Some};
ghost use Rattle.std.specs.List.{position};
ghost use Rattle.wf_host.specs.World.{piece_len, Same, Elapses};
ghost use Rattle.wf_host.specs.CallRecord.{record_world, record_stable};
ghost use Rattle.wf_host.specs.Ahead.{speaks, spoken, first_of, told, next_thing, after_poll, after_drop, at_first, piece_limit, starts_to, answer_at, answer_to, pieces, line_of};

use crate::memory::CallRecord;
use crate::{Address, Close, Deed, Reply, Service, What};
use std::alloc::{AllocError, Global};
use std::marker::Model;
use wf_value::{Bytes, OutOfMemory};

/// How many bytes one poll hears at most.
const PIECE: usize = 65_536;

/// A call that was started, and tells something.
#[derive(Drop)]
pub(crate) struct Speaker {
    of: u64,
    since: u64,
    after: u32,
    things: Vec<What>,
    at: usize,
    offset: usize,
}

impl Model for Speaker {
    ghost use Rattle.std.specs.Prelude.{drop};
    ghost use Rattle.wf_host.specs.Ahead.{Line};
    ghost use Rattle.wf_host.specs.Outlook.{past_first};

    ghost Value = { Line };

    ghost view = { λ s. record { of = s.of; since = s.since; after = s.after; left = past_first s.offset (drop s.at s.things.items) } };
}

fn piece_limit() -> usize
    ensures { result ≡ piece_limit }
{
    PIECE
}

/// How many bytes a thing has.
fn piece_len(what: &What) -> usize
    ensures { result ≡ piece_len what.now }
{
    match what {
        What::Bytes(_, bytes) => bytes.as_slice().len(),
        What::Visit(_, bytes) => bytes.as_slice().len(),
        What::Nothing => 0,
        What::End(_) => 0,
        What::Broken(_) => 0,
        What::VisitEnd(_) => 0,
    }
}

/// So many bytes at an offset, or what there is.
fn part(alloc: Global, bytes: &[u8], offset: usize, limit: usize) -> Result<Bytes, OutOfMemory>
    ensures { IfOk result (λ b. b ≡ take limit (drop offset bytes.now)) }
{
    let rest = match bytes.get(offset..) {
        Some(rest) => rest,
        None => &[],
    };
    match rest.get(..limit) {
        Some(piece) => Bytes::new(alloc, piece),
        None => Bytes::new(alloc, rest),
    }
}

impl Speaker {
    /// Whether it tells something in the poll that comes after so many.
    fn speaks(&self, polls: u64) -> bool
        ensures { result ≡ speaks polls self.now }
    {
        self.after as u64 <= polls.saturating_sub(self.since) && self.at < self.things.len()
    }

    /// What the poll hears.
    fn first(&self, alloc: Global, limit: usize) -> Result<What, OutOfMemory>
        ensures { IfOk result (λ w. w ≡ first_of limit self.now.left) }
    {
        let Some(what) = self.things.get(self.at) else {
            return Ok(What::Nothing);
        };
        match what {
            What::Bytes(call, bytes) => {
                let piece = part(alloc, bytes.as_slice(), self.offset, limit)?;
                Ok(What::Bytes(*call, piece))
            }
            What::Visit(visit, bytes) => {
                let piece = part(alloc, bytes.as_slice(), self.offset, limit)?;
                Ok(What::Visit(*visit, piece))
            }
            What::Nothing => Ok(What::Nothing),
            What::End(call) => Ok(What::End(*call)),
            What::Broken(call) => Ok(What::Broken(*call)),
            What::VisitEnd(visit) => Ok(What::VisitEnd(*visit)),
        }
    }

    /// It was heard.
    fn tell(&mut self, limit: usize)
        ensures { self.new ≡ spoken limit self.old }
    {
        let Some(what) = self.things.get(self.at) else {
            return;
        };
        if piece_len(what).saturating_sub(self.offset) > limit {
            self.offset += limit;
        } else {
            self.at += 1;
            self.offset = 0;
        }
    }
}

/// Which of these tells something first.
fn first_speaker(speakers: &[Speaker], polls: u64) -> Option<usize>
    ensures { result ≡ position (speaks polls) speakers.now }
{
    speakers.iter().position(|s| s.speaks(polls))
}

/// The first of these that tells something has told it.
fn tell(speakers: &mut [Speaker], polls: u64, limit: usize)
    ensures { speakers.new ≡ told limit polls speakers.old }
{
    if let Some(i) = first_speaker(speakers, polls) {
        speakers[i].tell(limit);
    }
}

/// What is ahead.
#[derive(Drop)]
pub(crate) struct Outlook {
    polls: u64,
    calls: Vec<Speaker>,
}

impl Model for Outlook {
    ghost use Rattle.wf_host.specs.Ahead.{Ahead};

    ghost Value = { Ahead };

    ghost view = { λ o. record { polls = o.polls; calls = o.calls.items } };
}

/// The pieces of a call.
fn pieces_of(alloc: Global, call: u64, found: &[Vec<u8>]) -> Result<Vec<What>, OutOfMemory>
    ensures { IfOk result (λ v. v.items ≡ pieces call found.now) }
{
    let mut things = Vec::new(alloc);
    let mut rest = found;
    while let [piece, after @ ..] = rest {
        let bytes = Bytes::new(alloc, piece)?;
        things.push(What::Bytes(call, bytes))?;
        rest = after;
    }
    Ok(things)
}

/// How many calls were started to an address.
fn starts_to(to: &Address, deeds: &[Deed]) -> usize
    ensures { result ≡ starts_to to.now deeds.now }
{
    let mut count = 0;
    let mut rest = deeds;
    while let [deed, after @ ..] = rest {
        if let Deed::Start(_, at, _) = deed
            && at.is_same(to)
        {
            count += 1;
        }
        rest = after;
    }
    count
}

/// The answer of this number, or the last one where it is told again.
fn answer_at(replies: &[Reply], again: bool, n: usize) -> Option<&Reply>
    ensures { option_copied result ≡ answer_at replies.now again n }
{
    let last = replies.len().saturating_sub(1);
    replies.get(if again { n.min(last) } else { n })
}

/// What answers a call to an address to which so many were started before.
fn answer_to<'a>(services: &'a [Service], to: &Address, n: usize) -> Option<&'a Reply>
    ensures { option_copied result ≡ answer_to services.now to.now n }
{
    let mut rest = services;
    while let [service, after @ ..] = rest {
        if service.to.is_same(to) {
            return answer_at(&service.replies, service.again, n);
        }
        rest = after;
    }
    None
}

impl Outlook {
    /// Before the first deed.
    pub(crate) fn new(alloc: Global) -> Outlook
        ensures { result ≡ at_first }
    {
        Outlook {
            polls: 0,
            calls: Vec::new(alloc),
        }
    }

    /// What the next poll hears.
    pub(crate) fn next_thing(&self, alloc: Global) -> Result<What, OutOfMemory>
        ensures { IfOk result (λ w. w ≡ next_thing piece_limit self.now) }
    {
        match first_speaker(&self.calls, self.polls) {
            Some(i) => self.calls[i].first(alloc, piece_limit()),
            None => Ok(What::Nothing),
        }
    }

    /// A poll heard it.
    pub(crate) fn count_poll(&mut self)
        ensures { self.new ≡ after_poll piece_limit self.old }
    {
        tell(&mut self.calls, self.polls, piece_limit());
        self.polls = self.polls.saturating_add(1);
    }

    /// A call that is started now, with what answers it.
    fn speaker_of(&self, alloc: Global, call: u64, reply: &Reply) -> Result<Speaker, OutOfMemory>
        ensures { IfOk result (λ s. s ∷ [] ≡ line_of call self.now.polls (Some reply.now)) }
    {
        let mut things = pieces_of(alloc, call, &reply.pieces)?;
        let last = match reply.close {
            Close::End => Some(What::End(call)),
            Close::Broken => Some(What::Broken(call)),
            Close::Silent => None,
        };
        if let Some(what) = last {
            things.push(what)?;
        }
        Ok(Speaker {
            of: call,
            since: self.polls,
            after: reply.after,
            things,
            at: 0,
            offset: 0,
        })
    }

    /// What answers a call that is started now, behind these deeds.
    pub(crate) fn answer(
        &self,
        alloc: Global,
        services: &[Service],
        deeds: &[Deed],
        call: u64,
        to: &Address,
    ) -> Result<Option<Speaker>, OutOfMemory>
        ensures { IfOk result (λ s. option_to_list s ≡ line_of call self.now.polls (answer_to services.now to.now (starts_to to.now deeds.now))) }
    {
        match answer_to(services, to, starts_to(to, deeds)) {
            Some(reply) => {
                let speaker = self.speaker_of(alloc, call, reply)?;
                Ok(Some(speaker))
            }
            None => Ok(None),
        }
    }

    /// Notes a start, with a speaker or none.
    pub(crate) fn start(
        &mut self,
        log: &mut CallRecord,
        speaker: Option<Speaker>,
        deed: Deed,
    ) -> Result<(), AllocError>
        ensures lines { OnOk result (self.new ≡ record { polls = self.old.polls; calls = self.old.calls ++ option_to_list speaker }) }
        ensures stays { OnErr result (self.new ≡ self.old) }
        ensures seen { (record_world log.new).seen ≡ (record_world log.old).seen }
        ensures stable { record_stable log.new ≡ record_stable log.old }
        ensures time { MatchResult result
            (λ _. Elapses Same (deed ∷ []) (record_world log.old) (record_world log.new))
            (λ _. Elapses Same [] (record_world log.old) (record_world log.new)) }
    {
        self.calls.reserve(1)?;
        log.act(deed)?;
        match speaker {
            Some(speaker) => {
                self.calls.push(speaker)?;
                Ok(())
            }
            None => Ok(()),
        }
    }

    /// A call was forgotten.
    pub(crate) fn drop_call(&mut self, call: u64)
        ensures { self.new ≡ after_drop call self.old }
    {
        self.calls.retain(|s| s.of != call);
    }
}
