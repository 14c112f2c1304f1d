// A connection over which a call is sent and answered.
ghost use Rattle.std.specs.Prelude.{◌≡◌, length, IfOk};
ghost use Rattle.wf_file_host.specs.Sockets.{IsPieceWithin};

use mio::net::TcpStream;
use mio::{Interest, Registry, Token};
use std::alloc::Global;
use std::io::{self, Read, Write};
use std::net::{Net, SocketAddr};
use wf_http_in::Reading;
use wf_value::{Bytes, OutOfMemory};

/// What a read of a connection tells.
#[derive(Clone, Copy, Debug, PartialEq, Eq)]
pub(crate) enum Step {
    /// Nothing yet.
    Nothing,
    /// So many bytes came, in front of the room.
    Piece(usize),
    /// The other side has said all.
    End,
    /// The connection is broken, or none could be had.
    Broken,
}

/// The connection of a call. It tries the addresses of its host one after another, until one takes the connection.
#[derive(Drop)]
pub(crate) struct Connection {
    call: u64,
    token: usize,
    /// None where no address is left that takes the connection.
    stream: Option<TcpStream>,
    /// The addresses that weren't tried yet, the next of them last.
    others: Vec<SocketAddr>,
    request: Bytes,
    sent: usize,
    is_connected: bool,
    /// Something may have come, or the rest of the request may be taken. Only a read that would wait ends this, since what is ready is
    /// reported once.
    is_ready: bool,
    /// No more of the request is taken; what was answered by then is still read.
    is_cut: bool,
    /// The answer, as far as it was told.
    answer: Reading,
}

/// Begins to connect to an address. What becomes of it is reported under the token.
fn connect<N: Net>(
    net: &N,
    registry: &Registry,
    token: usize,
    to: SocketAddr,
) -> io::Result<TcpStream> {
    let mut stream = TcpStream::connect(net, to)?;
    registry.register(
        &mut stream,
        Token(token),
        Interest::READABLE | Interest::WRITABLE,
    )?;
    Ok(stream)
}

impl Connection {
    /// Begins to connect for a call, to the last of these addresses that takes it.
    pub(crate) fn new<N: Net>(
        alloc: Global,
        net: &N,
        registry: &Registry,
        token: usize,
        call: u64,
        addresses: Vec<SocketAddr>,
        request: Bytes,
    ) -> Connection {
        let mut connection = Connection {
            call,
            token,
            stream: None,
            others: addresses,
            request,
            sent: 0,
            is_connected: false,
            is_ready: false,
            is_cut: false,
            answer: Reading::new(alloc),
        };
        connection.connect_next(net, registry);
        connection
    }

    /// The number of its call.
    pub(crate) fn call(&self) -> u64 {
        self.call
    }

    /// The token under which it is reported, which no other connection has.
    pub(crate) fn token(&self) -> usize {
        self.token
    }

    /// Notes that something was reported under this token.
    pub(crate) fn note(&mut self, token: usize) {
        if self.token == token {
            self.is_ready = true;
        }
    }

    /// Goes on with connecting and sending, as far as that needs no wait.
    pub(crate) fn advance<N: Net>(&mut self, net: &N, registry: &Registry) {
        if !self.is_ready {
            return;
        }
        if !self.is_connected {
            self.finish_connecting(net, registry);
        }
        if self.is_connected && !self.is_cut {
            self.send();
        }
    }

    /// Looks what became of the connecting.
    fn finish_connecting<N: Net>(&mut self, net: &N, registry: &Registry) {
        let Some(stream) = &self.stream else {
            return;
        };
        let is_refused = !matches!(stream.take_error(), Ok(None));
        let has_peer = stream.peer_addr().is_ok();
        if is_refused {
            self.connect_next(net, registry);
        } else if has_peer {
            self.is_connected = true;
        } else {
            // reported too early: it is reported again once it is connected or refused
            self.is_ready = false;
        }
    }

    /// Begins to connect to the next address.
    fn connect_next<N: Net>(&mut self, net: &N, registry: &Registry) {
        self.stream = None;
        self.is_ready = false;
        while let Some(to) = self.others.pop() {
            if let Ok(stream) = connect(net, registry, self.token, to) {
                self.stream = Some(stream);
                return;
            }
        }
    }

    /// Sends on, until the rest would have to wait.
    fn send(&mut self) {
        let Some(stream) = &mut self.stream else {
            return;
        };
        for _ in 0..u64::MAX {
            let Some(rest) = self.request.as_slice().get(self.sent..) else {
                return;
            };
            if rest.is_empty() {
                return;
            }
            match stream.write(rest) {
                Ok(0) => break,
                Ok(count) => self.sent = self.sent.saturating_add(count),
                Err(e) if e.kind() == io::ErrorKind::WouldBlock => return,
                Err(e) if e.kind() == io::ErrorKind::Interrupted => {}
                Err(_) => break,
            }
        }
        self.is_cut = true;
    }

    /// Reads what has come, as much as there is room for.
    pub(crate) fn read(&mut self, room: &mut [u8]) -> Step
        ensures { IsPieceWithin (length room.new) result }
    {
        let Some(stream) = &mut self.stream else {
            return Step::Broken;
        };
        if !self.is_ready || !self.is_connected {
            return Step::Nothing;
        }
        for _ in 0..u64::MAX {
            match stream.read(room) {
                // what was answered to a request that was cut off may be cut off too
                Ok(0) if self.is_cut => return Step::Broken,
                Ok(0) => return Step::End,
                Ok(count) => return Step::Piece(count),
                Err(e) if e.kind() == io::ErrorKind::WouldBlock => {
                    self.is_ready = false;
                    return Step::Nothing;
                }
                Err(e) if e.kind() == io::ErrorKind::Interrupted => {}
                Err(_) => return Step::Broken,
            }
        }
        Step::Nothing
    }

    /// A piece that was read is told. Gives it with whether it makes the answer whole, broken or too large, so that nothing behind it is
    /// wanted. Without memory it isn't told.
    pub(crate) fn tell(&mut self, alloc: Global, piece: &[u8]) -> Result<(Bytes, bool), OutOfMemory>
        ensures { IfOk result (λ r. r.0 ≡ piece.now) }
    {
        let told = Bytes::new(alloc, piece)?;
        self.answer.feed(piece)?;
        Ok((told, self.answer.answer().is_some()))
    }
}
