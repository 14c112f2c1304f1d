//! The rules on what an engine does, as definitions over records and deeds, and their laws: the rules are kept by each step, whatever
//! visits come to.
#![tactic(auto)]

mod history_laws;
mod laws;
mod outside_laws;
mod waiting_laws;

pub use history_laws::{laws_of_histories, laws_of_moments, worked_formats};
pub use laws::{laws_of_deeds, laws_of_rules, laws_of_steps};
pub use outside_laws::{laws_of_visits, there_is_an_outside, worked_verdicts};
pub use waiting_laws::laws_of_waiting;
