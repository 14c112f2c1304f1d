// The options, their names and the words that they may have.
ghost use Rattle.std.specs.Prelude.{◌≡◌};
ghost use Rattle.std.specs.List.{list_all};
ghost use Rattle.wf_args.specs.Lines.{name_of, name_word, most, is_word, is_id_byte};

use crate::env::env_in;
use crate::route::{LONGEST_WORD, route_in};
use crate::waits::{turn_in, waits_in};

/// An option of a command line.
#[derive(Debug, Clone, Copy, PartialEq, Eq)]
pub enum OptionName {
    /// `--source PATH`: the file of the workflow's source.
    Source,
    /// `--journal PATH`: the file of the execution's journal.
    Journal,
    /// `--args JSON`: the argument of `main`, as a JSON text.
    Args,
    /// `--id ID`: the execution's id.
    Id,
    /// `--route HOST=NAME:PORT`: where calls for a host are sent.
    Route,
    /// `--env KEY=VALUE`: what a name stands for in the environment.
    Env,
    /// `--waits N`: how often the command may wait.
    Waits,
    /// `--turn N`: after how many turns.
    Turn,
    /// `--grep TEXT`: only what holds a text.
    Grep,
}

impl OptionName {
    /// The option that a word names.
    pub(crate) fn named(word: &str) -> Option<OptionName>
        ensures { result ≡ name_of word.now }
    {
        match word {
            "--source" => Some(OptionName::Source),
            "--journal" => Some(OptionName::Journal),
            "--args" => Some(OptionName::Args),
            "--id" => Some(OptionName::Id),
            "--route" => Some(OptionName::Route),
            "--env" => Some(OptionName::Env),
            "--waits" => Some(OptionName::Waits),
            "--turn" => Some(OptionName::Turn),
            "--grep" => Some(OptionName::Grep),
            _ => None,
        }
    }

    /// The name as it stands in a line.
    pub fn word(self) -> &'static str
        ensures { result.now ≡ name_word self }
    {
        match self {
            OptionName::Source => "--source",
            OptionName::Journal => "--journal",
            OptionName::Args => "--args",
            OptionName::Id => "--id",
            OptionName::Route => "--route",
            OptionName::Env => "--env",
            OptionName::Waits => "--waits",
            OptionName::Turn => "--turn",
            OptionName::Grep => "--grep",
        }
    }

    /// How often the option may stand in a line.
    pub(crate) fn most(self) -> usize
        ensures { result ≡ most self }
    {
        match self {
            OptionName::Route | OptionName::Env => 20,
            OptionName::Source
            | OptionName::Journal
            | OptionName::Args
            | OptionName::Id
            | OptionName::Waits
            | OptionName::Turn
            | OptionName::Grep => 1,
        }
    }

    /// Whether a word may stand behind the name: for a path one of 1 to 65,536 bytes, for an argument
    /// one of at most 65,536 bytes, also the empty one, for an id 1 to 64 letters, digits, `.`, `_` and
    /// `-`, for a route `HOST=NAME:PORT`, for the environment `KEY=VALUE`, for waits a number of 1 to
    /// 1,000,000,000, for turns one of 0 to 4,294,967,295, and for a text to be found one of at most
    /// 65,536 bytes.
    pub(crate) fn fits(self, word: &str) -> bool
        ensures { result ≡ is_word self word.now }
    {
        match self {
            OptionName::Source | OptionName::Journal => {
                !word.is_empty() && word.len() <= LONGEST_WORD
            }
            OptionName::Args => word.len() <= LONGEST_WORD,
            OptionName::Id => !word.is_empty() && word.len() <= 64 && all_of_ids(word.as_bytes()),
            OptionName::Route => route_in(word).is_some(),
            OptionName::Env => env_in(word).is_some(),
            OptionName::Waits => waits_in(word).is_some(),
            OptionName::Turn => turn_in(word).is_some(),
            OptionName::Grep => word.len() <= LONGEST_WORD,
        }
    }
}

fn all_of_ids(bytes: &[u8]) -> bool
    ensures { result ≡ list_all is_id_byte bytes.now }
{
    bytes.iter().all(|byte| is_id_byte(*byte))
}

fn is_id_byte(byte: u8) -> bool
    ensures { result ≡ is_id_byte byte }
{
    byte.is_ascii_alphanumeric() || matches!(byte, b'.' | b'_' | b'-')
}
