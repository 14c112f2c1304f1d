//! The outside of the engine: what is read, and one object that holds a journal file, a clock and an output.
#![tactic(auto)]

mod data;
mod host;
mod laws;
mod mem_host;
mod mem_source;
mod memory;
mod moves;
mod outlook;
mod plan;
mod printing;
mod progress;
mod reading;
mod source;

pub use data::{Address, Deed, Failed, Heard, PollError, Routes, What};
pub use host::{Host, LONGEST};
pub use laws::laws_of_hearing;
pub use mem_host::MemHost;
pub use mem_source::MemSource;
pub use moves::{copy_from, put_in};
pub use plan::{Close, Plan, Reply, Service, Visitation};
pub use printing::print_all;
pub use reading::{ReadFault, read_up_to};
pub use source::Source;
