//! The variables of an execution, in layers.
//!
//! A layer holds variables by their names, and stands inside another layer or inside none. A name is looked for in the layer that is
//! asked, then in the one outside it, and so on outward; an assignment changes the variable where it is found, and else makes it in the
//! layer that is asked. Several layers may stand inside one, as those of parallel branches do. All variables together count against one
//! limit, and each nests at most 100 deep.
#![tactic(auto)]

mod fault;
mod firsts;
mod key;
mod layer;
mod layers;
mod scopes;
mod seek;
mod spot;
mod written;

pub use fault::AssignFault;
pub use key::Key;
pub use scopes::{Chain, Scopes};
