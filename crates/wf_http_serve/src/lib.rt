//! Requests that come to callbacks: what of one was heard so far, and what it is told.
#![tactic(auto)]

mod asker;
mod body;
mod first_line;
mod framing;
mod head;
mod laws;
mod reply;
mod request;
mod stage;
mod visit;

pub use asker::{Asker, VisitState};
pub use laws::{
    asked_stays, each_text_is_read, each_visit_has_a_state, visits_are_small, visits_have_one_state,
};
pub use reply::{ReplyCode, reply_bytes};
pub use visit::Visit;
