//! The command lines of the program: the line that some words are, and the words of single options.
#![tactic(auto)]

mod command;
mod env;
mod help;
mod laws;
mod line;
mod line_words;
mod lookup;
mod option;
mod read;
mod route;
mod rows;
mod waits;

pub use command::Command;
pub use env::EnvParts;
pub use help::{help_text, version_text};
pub use laws::{bad_words_are_least, lines_are_spelled, options_are_found, words_are_spelled};
pub use line::Line;
pub use lookup::{journal_of, listen_of, source_of};
pub use option::OptionName;
pub use read::{LineFault, read_line};
pub use route::RouteParts;
pub use rows::{worked_lines, worked_words};
