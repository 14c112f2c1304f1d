//! What a task has still to do, as frames of numbers over the table of a program, and the layers of variables that it sees.
#![tactic(auto)]

mod advance;
mod assigned;
mod bindings;
mod branching;
mod calling;
mod codes;
mod entering;
mod facts;
mod filling;
mod forking;
mod frames;
mod kinds;
mod laws;
mod leaving;
mod next;
mod nodes;
mod places;
mod sight;
mod sighted;
mod step;
mod target;
mod turning;
mod writing;

pub use advance::step_of;
pub use assigned::{Assigned, evaluate, evaluate_value};
pub use bindings::Bindings;
pub use branching::enter_branch;
pub use calling::call_function;
pub use entering::{enter, enter_call};
pub use facts::Facts;
pub use filling::fill_shape;
pub use forking::{Fork, Forked, Work, work_of};
pub use frames::{Frame, Frames, Judging, Left, Looping, Trying};
pub use kinds::{Kind, Wants, next_kind};
pub use laws::{assigns_as_tasks_do, looks_as_tasks_do};
pub use leaving::leave;
pub use next::{Next, next_in};
pub use nodes::{are_built, block, entries, first_of, loop_node, parallel_node, try_node};
pub use sight::seen;
pub use sighted::Seen;
pub use step::{Leads, Step, body_frame, map_of};
pub use target::{Nap, Target, http_named, nap_named};
pub use turning::Turn;
pub use writing::{assign, assign_name};
