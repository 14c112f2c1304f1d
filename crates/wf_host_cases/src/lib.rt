//! What the case programs of records, hosts, journals and machines share: numbers and bytes as cases have them, and hosts in memory by plans.
#![tactic(auto)]

mod forms;
mod plans;
mod services;

pub use forms::{gap, items_of, number_of, numbers_of, write_bytes};
pub use plans::{host_of, write_left};
pub use services::{address_of, services_of};
