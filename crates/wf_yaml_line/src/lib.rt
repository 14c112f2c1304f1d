//! What stands on a line of a source in the YAML subset: the marks that end its parts, plain and
//! quoted scalars, and keys; and the refusals.
#![tactic(auto)]

mod fault;
mod key_set;
mod keys;
mod laws;
mod marks;
mod quoted;
mod scalars;
mod trees;

pub use fault::{Fault, Kind, YamlFault, both_noted, first_of_two, least, refuse_if};
pub use key_set::KeySet;
pub use keys::{Key, is_delay_key, may_start_plain, read_key, starts_quote};
pub use laws::{faults_are_in_order, faults_are_least};
pub use marks::{
    around_colon, before_comment, behind_first, ends_line, ends_with_colon, ends_word, is_blank,
    is_blank_line, is_flow_mark, is_guarded, is_reserved, skip_blanks, trimmed,
};
pub use quoted::{Quoted, read_quoted};
pub use scalars::{Plain, plain_kind};
pub use trees::{noting, noting_after, plain_scalar, refused, text_of, text_tree};
