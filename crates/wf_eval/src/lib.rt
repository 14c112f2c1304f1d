//! The evaluation of expressions by their code.
#![tactic(auto)]

mod answers;
mod calling;
mod functions;
mod look;
mod machine;
mod maps;
mod members;
mod operators;
mod short;

pub use answers::{copied, keep, owned};
pub use calling::apply;
pub use functions::shown;
pub use look::Look;
pub use machine::eval;
pub use maps::map_of;
