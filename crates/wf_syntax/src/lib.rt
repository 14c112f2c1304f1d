//! Programs built from a source's tree, by the rules of wf_syntax_rules.
#![tactic(auto)]

mod entries;
mod faults;
mod flows;
mod literals;
mod parts;
mod policies;
mod scalars;
mod source;
mod steps;
mod stop;
mod values;
mod words;

pub use source::build;
