// The words of the environment.
ghost use Rattle.std.specs.Prelude.{◌≡◌};
ghost use Rattle.std.specs.Option.{option_map};
ghost use Rattle.wf_args.specs.Lines.{env_in};
ghost use Rattle.wf_args.specs.Plain.{plain_env};

use crate::route::LONGEST_WORD;

/// What a word `KEY=VALUE` says: in the environment the key stands for the value.
#[derive(Debug, Clone, Copy, PartialEq, Eq)]
pub struct EnvParts<'w> {
    /// The key, not empty and without `=`.
    pub key: &'w str,
    /// The value, which may be any.
    pub value: &'w str,
}

/// The pair that the word of `--env` says.
pub(crate) fn env_in(word: &str) -> Option<EnvParts<'_>>
    ensures { option_map plain_env result ≡ env_in word.now }
{
    let (key, value) = word.split_once('=')?;
    if word.len() > LONGEST_WORD || key.is_empty() {
        return None;
    }
    Some(EnvParts { key, value })
}
