// What a command line says.
ghost use Rattle.std.specs.Prelude.{◌≡◌, ◌≤◌, IfSome, IsTrue, length, slice_get};
ghost use Rattle.std.specs.Option.{option_copied, option_map};
ghost use Rattle.wf_args.specs.Lines.{env_of, is_word, routes_of, turn_of, waits_of, word_of};
ghost use Rattle.wf_args.specs.Laws.{IsEnv, IsLine, IsRoute};
ghost use Rattle.wf_args.specs.Plain.{plain_env, plain_line, plain_route};
ghost use Rattle.wf_args.specs.declared.option.OptionName.TheVariants.{Args, Grep, Id, Journal, Source};

use crate::command::Command;
use crate::env::{EnvParts, env_in};
use crate::line::Line;
use crate::lookup::{find_in, find_nth};
use crate::option::OptionName;
use crate::route::{RouteParts, route_in};
use crate::waits::{turn_in, waits_in};

/// How often a command may wait where the line doesn't say it.
const DEFAULT_WAITS: u32 = 1_000_000;

impl<'w> Line<'w> {
    /// The command. A clause here says that the line is one: what its options are.
    pub fn command(&self) -> Command
        ensures command { result ≡ (plain_line self.now).command }
        ensures proper { IsLine (plain_line self.now) }
    {
        self.command
    }

    /// The path of the source, not empty, where the option `--source` stands.
    pub fn source(&self) -> Option<&'w str>
        ensures word { option_copied result ≡ word_of Source (plain_line self.now) }
        ensures proper { IfSome result (λ w. IsTrue (is_word Source w.now)) }
    {
        find_in(OptionName::Source, self.options)
    }

    /// The path of the journal, not empty, where the option `--journal` stands.
    pub fn journal(&self) -> Option<&'w str>
        ensures word { option_copied result ≡ word_of Journal (plain_line self.now) }
        ensures proper { IfSome result (λ w. IsTrue (is_word Journal w.now)) }
    {
        find_in(OptionName::Journal, self.options)
    }

    /// The text that is to be the JSON of `main`'s argument, of at most 65,536 bytes, where the option
    /// `--args` stands.
    pub fn args(&self) -> Option<&'w str>
        ensures { option_copied result ≡ word_of Args (plain_line self.now) }
    {
        find_in(OptionName::Args, self.options)
    }

    /// The id, 1 to 64 letters, digits, `.`, `_` and `-`, where the option `--id` stands.
    pub fn id(&self) -> Option<&'w str>
        ensures word { option_copied result ≡ word_of Id (plain_line self.now) }
        ensures proper { IfSome result (λ w. IsTrue (is_word Id w.now)) }
    {
        find_in(OptionName::Id, self.options)
    }

    /// The route with this index among those of the options `--route`, in their order.
    pub fn route(&self, index: usize) -> Option<RouteParts<'w>>
        ensures route { option_map plain_route result
            ≡ slice_get (routes_of (plain_line self.now)) index }
        ensures proper { IfSome result (λ r. IsRoute (plain_route r)) }
        ensures few { length (routes_of (plain_line self.now)) ≤ 20 }
    {
        match find_nth(OptionName::Route, index, self.options) {
            Some(word) => route_in(word),
            None => None,
        }
    }

    /// The pair with this index among those of the options `--env`, in their order.
    pub fn env(&self, index: usize) -> Option<EnvParts<'w>>
        ensures env { option_map plain_env result ≡ slice_get (env_of (plain_line self.now)) index }
        ensures proper { IfSome result (λ p. IsEnv (plain_env p)) }
        ensures few { length (env_of (plain_line self.now)) ≤ 20 }
    {
        match find_nth(OptionName::Env, index, self.options) {
            Some(word) => env_in(word),
            None => None,
        }
    }

    /// After how many turns: as the option `--turn` says, or else 0.
    pub fn turn(&self) -> u32
        ensures { result ≡ turn_of (plain_line self.now) }
    {
        match find_in(OptionName::Turn, self.options) {
            Some(word) => turn_in(word).unwrap_or(0),
            None => 0,
        }
    }

    /// The text that is to be found, of at most 65,536 bytes, where the option `--grep` stands.
    pub fn grep(&self) -> Option<&'w str>
        ensures { option_copied result ≡ word_of Grep (plain_line self.now) }
    {
        find_in(OptionName::Grep, self.options)
    }

    /// How often the command may wait: as often as the option `--waits` says, or else 1,000,000 times.
    pub fn waits(&self) -> u32
        ensures waits { result ≡ waits_of (plain_line self.now) }
        ensures within { (1 ≤ result) × (result ≤ 1000000000) }
    {
        match find_in(OptionName::Waits, self.options) {
            Some(word) => waits_in(word).unwrap_or(DEFAULT_WAITS),
            None => DEFAULT_WAITS,
        }
    }
}
