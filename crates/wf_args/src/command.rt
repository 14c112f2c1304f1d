// The commands.
ghost use Rattle.std.specs.Prelude.{◌≡◌};
ghost use Rattle.std.specs.List.{list_any};
ghost use Rattle.wf_args.specs.Lines.{command_of, options_of, same_name};

use crate::option::OptionName;

/// What a command does.
#[derive(Debug, Clone, Copy, PartialEq, Eq)]
pub enum Command {
    /// Tells whether the checker accepts a source: the word `check`.
    Check,
    /// Prints the tree of a source in one layout: the word `format`.
    Format,
    /// Starts an execution and goes on with it: the word `run`.
    Run,
    /// Goes on with an execution: the word `resume`.
    Resume,
    /// Shows what an execution has come to: the word `show`.
    Show,
    /// Shows what it had come to after some turns: the word `at`.
    At,
    /// Prints what it has logged: the word `log`.
    Log,
    /// Prints the help: the word `--help`.
    Help,
    /// Prints the program's name and version: the word `--version`.
    Version,
}

impl Command {
    /// The command that a word names.
    pub(crate) fn named(word: &str) -> Option<Command>
        ensures { result ≡ command_of word.now }
    {
        match word {
            "check" => Some(Command::Check),
            "format" => Some(Command::Format),
            "run" => Some(Command::Run),
            "resume" => Some(Command::Resume),
            "show" => Some(Command::Show),
            "at" => Some(Command::At),
            "log" => Some(Command::Log),
            "--help" => Some(Command::Help),
            "--version" => Some(Command::Version),
            _ => None,
        }
    }

    /// Whether the command takes this option.
    pub(crate) fn takes(self, name: OptionName) -> bool
        ensures { result ≡ list_any (same_name name) (options_of self) }
    {
        match self {
            Command::Check | Command::Format => matches!(name, OptionName::Source),
            Command::Run => matches!(
                name,
                OptionName::Source
                    | OptionName::Journal
                    | OptionName::Args
                    | OptionName::Id
                    | OptionName::Route
                    | OptionName::Env
                    | OptionName::Waits
            ),
            Command::Resume => matches!(name, OptionName::Journal | OptionName::Waits),
            Command::Show => matches!(name, OptionName::Journal),
            Command::At => matches!(name, OptionName::Journal | OptionName::Turn),
            Command::Log => matches!(name, OptionName::Journal | OptionName::Grep),
            Command::Help | Command::Version => false,
        }
    }
}
