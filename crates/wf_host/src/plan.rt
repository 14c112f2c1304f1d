// What a host in memory is told to do.
use crate::Address;

/// What a host in memory begins with, what it hears, and where it fails. Its calls are counted from 1.
#[derive(Drop)]
pub struct Plan {
    /// The journal file, all of it on the disk.
    pub image: Vec<u8>,
    /// The readings of the clock, in milliseconds since 1970. A clock that has run out repeats its last reading, or
    /// gives 0 where it was empty.
    pub clock: Vec<u64>,
    /// The numbers of the calls that fail, of those that can.
    pub fail: Vec<u64>,
    /// After so many writes and syncs every disk, poll and print call fails.
    pub stop: Option<u64>,
    /// Who answers the calls that are started.
    pub services: Vec<Service>,
    /// Who visits. The first visit has the number 0. No visit is heard yet.
    pub visits: Vec<Visitation>,
    /// How many bytes are printed before a print takes none.
    pub print_room: Option<u64>,
}

/// What answers the calls to an address, in the order in which they are started.
#[derive(Drop)]
pub struct Service {
    /// The address.
    pub to: Address,
    /// The replies, one for each call.
    pub replies: Vec<Reply>,
    /// Whether the last reply is given again to each further call. Else these hear nothing.
    pub again: bool,
}

/// One answer to a call.
#[derive(Drop)]
pub struct Reply {
    /// How many polls pass between the start of the call and the first piece.
    pub after: u32,
    /// The pieces, one for each poll.
    pub pieces: Vec<Vec<u8>>,
    /// What comes behind the pieces.
    pub close: Close,
}

/// How an answer ends.
#[derive(Clone, Copy, Debug, PartialEq, Eq)]
pub enum Close {
    /// It is whole.
    End,
    /// Its connection breaks.
    Broken,
    /// Nothing more comes.
    Silent,
}

/// One visit.
#[derive(Drop)]
pub struct Visitation {
    /// The number of the poll that hears its first piece, from 1.
    pub at_poll: u32,
    /// The pieces, one for each poll.
    pub pieces: Vec<Vec<u8>>,
}
