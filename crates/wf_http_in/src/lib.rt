//! What an answer is: the bytes heard of a call, in any pieces, read as an HTTP response (RFC
//! 9112).
#![tactic(auto)]

mod answer;
mod body;
mod framing;
mod head;
mod heads;
mod laws;
mod reading;
mod stage;

pub use answer::Answer;
pub use head::Head;
pub use laws::{answers_are_small, none_at_first, one_answer};
pub use reading::Reading;
