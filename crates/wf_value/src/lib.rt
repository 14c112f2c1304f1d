//! The values of the workflow language, in memory and as JSON (RFC 8259), and what programs on
//! them share: whole-number arithmetic, the errors that the language raises, paths into documents,
//! retry policies and severities.
#![tactic(auto)]

mod answers;
mod bytes;
mod depth;
mod entries;
mod errors;
mod items;
mod json_laws;
mod json_text;
mod keys;
mod limits;
mod measure;
mod media_type;
mod numbers;
mod out_of_memory;
mod pairs;
mod path;
mod policies;
mod same;
mod severity;
mod sharing;
mod size;
mod stop;
mod text;
mod value;
mod worked;

pub use answers::{sized, sized_bytes, sized_text};
pub use bytes::Bytes;
pub use errors::{Raise, Tag, error_map};
pub use json_laws::{reading_is_a_function, reading_is_decided};
pub use json_text::{JsonFault, from_json, to_json};
pub use keys::key_order;
pub use limits::{MAX_DEPTH, MAX_SIZE, limits_are_as_defined};
pub use media_type::media_type_of;
pub use numbers::{NumFault, add, div, mul, neg, rem, sub, trunc_div};
pub use out_of_memory::OutOfMemory;
pub use pairs::Pairs;
pub use path::{Path, PathPart};
pub use policies::{Backoff, DefaultKind};
pub use severity::Severity;
pub use stop::Stop;
pub use text::Text;
pub use value::{List, Map, Value};
pub use worked::worked_texts;
