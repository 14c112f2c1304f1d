//! The functions `list.*`, `map.*`, `json.*` and `base64.*` of the language's library.
#![tactic(auto)]

mod base64_text;
mod json_text;
mod lists;
mod lookups;
mod maps;
mod merging;

pub use base64_text::{base64_decode, base64_encode};
pub use json_text::{json_decode, json_encode, json_encode_to_string};
pub use lists::{list_concat, list_prepend};
pub use lookups::map_get;
pub use maps::map_delete;
pub use merging::map_merge;
