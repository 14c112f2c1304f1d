// Where the walk over a flow collection stands, and what is open there.
use wf_tree::{PairsSoFar, Tree, TreeList};
use wf_value::Text;
use wf_yaml_line::{Fault, KeySet};

/// The pairs of a map so far, and their keys. Where a value was refused, its key stands among them.
#[derive(Drop)]
pub(crate) struct MapSoFar {
    pub(crate) pairs: PairsSoFar,
    pub(crate) keys: KeySet,
}

/// A collection between its elements, with those before.
#[derive(Drop)]
pub(crate) enum Hand {
    Items(TreeList),
    Pairs(MapSoFar),
}

/// What a node that is being read will be: an item of a list, the value of a key of a map, or that
/// of the one pair of an item `k: v`.
#[derive(Drop)]
pub(crate) enum Frame {
    Item(TreeList),
    Value(MapSoFar, Text),
    OnePair(Text),
}

/// What is read next, with the text that is left.
#[derive(Drop)]
pub(crate) enum Spot<'a> {
    // Behind the bracket that opens a collection, a map where the flag is set.
    Open(bool, &'a [char]),
    // Before an element of a collection, or the bracket that closes it.
    Element(Hand, &'a [char]),
    // Before an item.
    Item(&'a [char]),
    // Behind the `:` of a pair, of a key whose value may be a decimal where the flag is set.
    Value(bool, &'a [char]),
    // Behind an element of a collection, which has it already.
    Behind(Hand, &'a [char]),
}

/// Where the walk stands.
#[derive(Drop)]
pub(crate) enum Place<'a> {
    // Something is read next.
    Reading(Spot<'a>),
    // A node was read, with the text behind it.
    Node(Tree, &'a [char]),
    // Nothing more of the line can be read.
    Stopped,
}

/// What one turn of the walk finds: a fault, what is opened, and where the walk stands now.
#[derive(Drop)]
pub(crate) struct Turn<'a> {
    pub(crate) fault: Option<Fault>,
    pub(crate) frame: Option<Frame>,
    pub(crate) place: Place<'a>,
}
