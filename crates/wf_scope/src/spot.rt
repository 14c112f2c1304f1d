// Where variables stand.

/// Where a variable of a layer stands, or where it belongs.
#[derive(Clone, Copy)]
pub(crate) struct Spot {
    /// The layer's number.
    pub(crate) number: u64,
    /// Where the layer stands.
    pub(crate) layer: usize,
    /// Where the variable stands among those of the layer.
    pub(crate) pair: Result<usize, usize>,
    /// The class of its name.
    pub(crate) class: usize,
    /// What it counts, 0 where it isn't there.
    pub(crate) counted: u64,
}
