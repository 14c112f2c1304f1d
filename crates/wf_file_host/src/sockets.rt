// The connections of all calls, on one thread.
ghost use Rattle.std.specs.Prelude.{◌≡◌, ◌≤◌, length, IfOk, None};
ghost use Rattle.wf_host.specs.World.{piece_len, visit_of};

use crate::connection::{Connection, Step};
use crate::names::Names;
use mio::{Events, Poll, Token};
use std::alloc::Global;
use std::io;
use std::net::Net;
use std::time::Duration;
use wf_host::{Address, PollError, What};
use wf_value::{Bytes, OutOfMemory};

/// How many bytes are heard at once, at most.
const PIECE: usize = 65_536;

/// How many reports are taken at once.
const REPORTS: usize = 64;

/// No wait is longer, in milliseconds, so that a clock that was set forward is seen soon.
const LONGEST_WAIT: u64 = 10_000;

/// The connections of the calls that were started and of which something may still be heard. One is closed once its answer is whole.
#[derive(Drop)]
pub(crate) struct Sockets {
    poll: Poll,
    events: Events,
    names: Names,
    connections: Vec<Connection>,
    next_token: usize,
    /// The connection that is read next, so that each has its turn.
    turn: usize,
    room: Vec<u8>,
    /// A piece that was read into the room, and not told for want of memory: the token of its connection, and how long it is.
    kept: Option<(usize, usize)>,
    ghost within: { length room.items ≤ 65536 },
}

impl Sockets {
    /// No connections yet.
    pub(crate) fn new<N: Net>(alloc: Global, net: &N) -> Result<Sockets, PollError> {
        let Ok(poll) = Poll::new(net) else {
            return Err(PollError::Failed);
        };
        let Ok(events) = Events::with_capacity(alloc, REPORTS) else {
            return Err(PollError::OutOfMemory);
        };
        let Ok(room) = Vec::from_elem(alloc, 0, PIECE) else {
            return Err(PollError::OutOfMemory);
        };
        Ok(Sockets {
            poll,
            events,
            names: Names::new(alloc),
            connections: Vec::new(alloc),
            next_token: 0,
            turn: 0,
            room,
            kept: None,
        })
    }

    /// Begins to send a call. Whatever is in the way but want of memory is heard later.
    pub(crate) fn start<N: Net>(
        &mut self,
        alloc: Global,
        net: &N,
        call: u64,
        to: &Address,
        bytes: &[u8],
    ) -> Result<(), OutOfMemory> {
        let request = Bytes::new(alloc, bytes)?;
        let addresses = self.names.addresses_of(alloc, net, to)?;
        self.connections.reserve(1)?;
        let token = self.next_token;
        self.next_token = token.wrapping_add(1);
        let registry = self.poll.registry();
        let connection = Connection::new(alloc, net, registry, token, call, addresses, request);
        self.connections.push(connection)?;
        Ok(())
    }

    /// Waits at most so many milliseconds for a report, then tells what has come of one call.
    pub(crate) fn hear<N: Net>(
        &mut self,
        alloc: Global,
        net: &N,
        millis: u64,
    ) -> Result<What, PollError>
        ensures piece { IfOk result (λ w. piece_len w ≤ 65536) }
        ensures calls_alone { IfOk result (λ w. visit_of w ≡ None) }
    {
        if let Some((token, count)) = self.kept.take() {
            let all = &self.connections;
            if let Some(at) = all
                .iter()
                .position(|connection| connection.token() == token)
            {
                return self.tell_piece(alloc, at, count);
            }
        }
        if self.look(millis).is_err() {
            return Err(PollError::Failed);
        }
        for connection in self.connections.iter_mut() {
            connection.advance(net, self.poll.registry());
        }
        self.read(alloc)
    }

    /// Waits at most so many milliseconds for a report, and notes what was reported.
    fn look(&mut self, millis: u64) -> io::Result<()> {
        let wait = Duration::from_millis(millis.min(LONGEST_WAIT));
        self.poll.poll(&mut self.events, Some(wait))?;
        for event in self.events.iter() {
            let Token(token) = event.token();
            for connection in self.connections.iter_mut() {
                connection.note(token);
            }
        }
        Ok(())
    }

    /// Reads the connections in turn, until one tells something.
    fn read(&mut self, alloc: Global) -> Result<What, PollError>
        ensures piece { IfOk result (λ w. piece_len w ≤ 65536) }
        ensures calls_alone { IfOk result (λ w. visit_of w ≡ None) }
    {
        for _ in 0..self.connections.len() {
            if self.turn >= self.connections.len() {
                self.turn = 0;
            }
            let Some(connection) = self.connections.get_mut(self.turn) else {
                break;
            };
            let call = connection.call();
            match connection.read(&mut self.room) {
                Step::Nothing => self.turn += 1,
                Step::Piece(count) => return self.tell_piece(alloc, self.turn, count),
                Step::End => {
                    self.connections.remove(self.turn);
                    return Ok(What::End(call));
                }
                Step::Broken => {
                    self.connections.remove(self.turn);
                    return Ok(What::Broken(call));
                }
            }
        }
        Ok(What::Nothing)
    }

    /// Tells a piece of a connection that stands in the room, and closes the connection where nothing behind the piece is wanted. Without
    /// memory the piece is told by the next poll.
    fn tell_piece(&mut self, alloc: Global, at: usize, count: usize) -> Result<What, PollError>
        ensures piece { IfOk result (λ w. piece_len w ≤ 65536) }
        ensures calls_alone { IfOk result (λ w. visit_of w ≡ None) }
    {
        let Some(connection) = self.connections.get_mut(at) else {
            return Ok(What::Nothing);
        };
        let piece = &self.room[..count.min(self.room.len())];
        let call = connection.call();
        match connection.tell(alloc, piece) {
            Ok((bytes, true)) => {
                self.connections.remove(at);
                Ok(What::Bytes(call, bytes))
            }
            Ok((bytes, false)) => {
                self.turn = at + 1;
                Ok(What::Bytes(call, bytes))
            }
            Err(OutOfMemory) => {
                self.kept = Some((connection.token(), count));
                Err(PollError::OutOfMemory)
            }
        }
    }

    /// Forgets a call, and closes its connection.
    pub(crate) fn drop_call(&mut self, call: u64) {
        self.connections
            .retain(|connection| connection.call() != call);
    }
}
