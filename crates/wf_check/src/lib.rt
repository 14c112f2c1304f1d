//! The checker: the first node of a program at which a rule speaks.
#![tactic(auto)]

mod checked;
mod fault;
mod flows;
mod ones;
mod progress;
mod top;
mod walk;

pub use checked::Checked;
pub use top::{CheckFault, check};
pub use wf_diagnostics::CheckKind;
