// A service on loopback, on the thread of the host that calls it.
use std::alloc::Global;
use std::io::{ErrorKind, Read, Write};
use std::net::{Net, TcpListener, TcpStream};
use wf_cases::CaseFault;

/// A port on which nobody listens.
pub const CLOSED: u16 = 1;

/// The side that answers. None of its calls waits.
#[derive(Drop)]
pub struct Service {
    listener: TcpListener,
    /// The port on which it listens.
    pub port: u16,
    streams: Vec<Option<TcpStream>>,
}

/// What a read or a write gave that doesn't wait.
#[derive(Clone, Copy, Debug, PartialEq, Eq)]
pub enum Step {
    /// It would have to wait.
    Nothing,
    /// So many bytes.
    Got(usize),
    /// The other side has said all, or takes nothing more.
    End,
    /// The connection is broken.
    Broken,
}

impl Service {
    /// A service on a port that is free.
    pub fn new<R>(alloc: Global, rt: &R) -> Result<Service, CaseFault>
    where
        R: Net<Listener = TcpListener, Stream = TcpStream>,
    {
        let Ok(listener) = TcpListener::bind(rt, "127.0.0.1:0") else {
            return Err(CaseFault::NoCase);
        };
        if listener.set_nonblocking(true).is_err() {
            return Err(CaseFault::NoCase);
        }
        match listener.local_addr() {
            Ok(at) => Ok(Service {
                listener,
                port: at.port(),
                streams: Vec::new(alloc),
            }),
            Err(_) => Err(CaseFault::NoCase),
        }
    }

    /// Takes the next connection, if one has come.
    pub fn accept(&mut self) -> Result<bool, CaseFault> {
        let Ok((stream, _)) = self.listener.accept() else {
            return Ok(false);
        };
        if stream.set_nonblocking(true).is_err() {
            return Err(CaseFault::NoCase);
        }
        match self.streams.push(Some(stream)) {
            Ok(()) => Ok(true),
            Err(_) => Err(CaseFault::OutOfMemory),
        }
    }

    fn stream(&mut self, number: u64) -> Result<&mut TcpStream, CaseFault> {
        match self.streams.get_mut(number as usize) {
            Some(Some(stream)) => Ok(stream),
            _ => Err(CaseFault::NoCase),
        }
    }

    /// Reads what has come over the connection of this number, from 0.
    pub fn read(&mut self, number: u64, room: &mut [u8]) -> Result<Step, CaseFault> {
        match self.stream(number)?.read(room) {
            Ok(0) => Ok(Step::End),
            Ok(count) => Ok(Step::Got(count)),
            Err(e) => Ok(waits(e.kind())),
        }
    }

    /// Writes what is taken over the connection of this number.
    pub fn write(&mut self, number: u64, bytes: &[u8]) -> Result<Step, CaseFault> {
        match self.stream(number)?.write(bytes) {
            Ok(0) => Ok(Step::End),
            Ok(count) => Ok(Step::Got(count)),
            Err(e) => Ok(waits(e.kind())),
        }
    }

    /// Closes the connection of this number.
    pub fn close(&mut self, number: u64) -> Result<(), CaseFault> {
        match self.streams.get_mut(number as usize) {
            Some(stream) => {
                *stream = None;
                Ok(())
            }
            None => Err(CaseFault::NoCase),
        }
    }
}

fn waits(kind: ErrorKind) -> Step {
    match kind {
        ErrorKind::WouldBlock | ErrorKind::Interrupted => Step::Nothing,
        _ => Step::Broken,
    }
}
