//! The functions `text.*` of the language's library. Positions in texts count characters.
#![tactic(auto)]

mod bytes;
mod letters;
mod places;
mod replace;
mod split;
mod substring;
mod url;

pub use bytes::{text_decode, text_encode};
pub use letters::{text_to_lower, text_to_upper};
pub use places::text_find_all;
pub use replace::text_replace_all;
pub use split::text_split;
pub use substring::text_substring;
pub use url::{text_url_decode, text_url_encode};
