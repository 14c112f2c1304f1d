// What a symbol is to the arguments of a call.

/// It opens a bracket, closes one, is a comma, or is none of these.
#[derive(Clone, Copy)]
pub(crate) enum Role {
    Opens,
    Closes,
    Parts,
    GoesOn,
}
