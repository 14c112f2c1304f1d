// What is handed to the outside and heard from it.
ghost use Rattle.std.specs.Prelude.{◌≡◌, List, ℕ, [], ◌∷◌, ◌++◌, OnOk, OnErr};

use std::alloc::Global;
use std::marker::Model;
use wf_value::{Bytes, OutOfMemory, Text};

/// The outside didn't do what was asked.
#[derive(Clone, Copy, Debug, PartialEq, Eq)]
pub struct Failed;

/// A poll that answered nothing.
#[derive(Clone, Copy, Debug, PartialEq, Eq)]
pub enum PollError {
    /// The outside failed, and its count of failed polls rose.
    Failed,
    /// There was no memory for what was heard.
    OutOfMemory,
}

/// Where a call is sent.
#[derive(Drop)]
pub struct Address {
    /// A host's name, or its address in numbers.
    pub name: Text,
    /// The port of TCP.
    pub port: u16,
}

impl Address {
    ghost use Rattle.std.specs.Prelude.{◌≡◌, IfOk};
    ghost use Rattle.wf_host.specs.Ahead.{is_same};

    /// An equal address.
    pub fn copy(&self) -> Result<Address, OutOfMemory>
        ensures { IfOk result (λ a. a ≡ self.now) }
    {
        Ok(Address {
            name: self.name.copy()?,
            port: self.port,
        })
    }

    /// Whether it is this address.
    pub fn is_same(&self, other: &Address) -> bool
        ensures { result ≡ is_same self.now other.now }
    {
        self.name.as_str() == other.name.as_str() && self.port == other.port
    }
}

/// What a poll heard.
#[derive(Drop)]
pub struct Heard {
    /// The clock at the end of the poll, in milliseconds since 1970.
    pub reading: u64,
    /// What was heard by then.
    pub what: What,
}

/// What was heard of a call, by the call's number, or of a visit, by the visit's number.
#[derive(Drop)]
pub enum What {
    /// Nothing, until the moment that the poll was given.
    Nothing,
    /// The next piece of the answer to a call.
    Bytes(u64, Bytes),
    /// The answer to a call has ended.
    End(u64),
    /// The connection of a call is broken, or was refused.
    Broken(u64),
    /// The next piece of a visit.
    Visit(u64, Bytes),
    /// A visit has ended.
    VisitEnd(u64),
}

impl What {
    ghost use Rattle.std.specs.Prelude.{◌≡◌, IfOk};

    /// An equal one.
    pub fn copy(&self) -> Result<What, OutOfMemory>
        ensures { IfOk result (λ w. w ≡ self.now) }
    {
        match self {
            What::Nothing => Ok(What::Nothing),
            What::Bytes(call, bytes) => Ok(What::Bytes(*call, bytes.copy()?)),
            What::End(call) => Ok(What::End(*call)),
            What::Broken(call) => Ok(What::Broken(*call)),
            What::Visit(visit, bytes) => Ok(What::Visit(*visit, bytes.copy()?)),
            What::VisitEnd(visit) => Ok(What::VisitEnd(*visit)),
        }
    }
}

/// What was done outside the disk, in the order in which it was begun.
pub enum Deed {
    /// A call of this number was started, to this address and with these bytes.
    Start(u64, Address, Bytes),
    /// A poll until this moment heard this.
    Poll(u64, Heard),
    /// The clock was read.
    Now(u64),
    /// A visit of this number was answered with these bytes.
    Reply(u64, Bytes),
    /// The call of this number was forgotten.
    Drop(u64),
    /// These bytes were taken for printing.
    Print(Bytes),
}

// Written, and not derived: it is one call wherever a deed is let go.
impl Drop for Deed {
    fn drop(self) {
        match self {
            Deed::Start(_, _, _) | Deed::Poll(_, _) | Deed::Now(_) => {}
            Deed::Reply(_, _) | Deed::Drop(_) | Deed::Print(_) => {}
        }
    }
}

/// Where calls are sent in place of the hosts that they name: pairs of a host's text and an address, in the order in
/// which they were pushed.
#[derive(Drop)]
pub struct Routes {
    pairs: Vec<(Text, Address)>,
}

impl Model for Routes {
    ghost use Rattle.std.specs.Prelude.{List, ℕ};
    ghost use Rattle.wf_host.specs.declared.data.Address.{Address};

    ghost Value = { List (List ℕ × Address) };

    ghost view = { λ r. r.pairs.items };
}

impl Routes {
    /// No routes.
    pub fn new(alloc: Global) -> Routes
        ensures { result ≡ [] }
    {
        Routes {
            pairs: Vec::new(alloc),
        }
    }

    /// Adds a pair at the end. Without memory for it the routes stay as they are.
    pub fn push(&mut self, host: Text, to: Address) -> Result<(), OutOfMemory>
        ensures ok { OnOk result (self.new ≡ self.old ++ (host, to) ∷ []) }
        ensures err { OnErr result (self.new ≡ self.old) }
    {
        self.pairs.push((host, to))?;
        Ok(())
    }

    /// The pairs.
    pub fn items(&self) -> &[(Text, Address)]
        ensures { result.now ≡ self.now }
    {
        &self.pairs
    }
}
