// A command line that was read.
ghost use Rattle.std.specs.Prelude.{◌≡◌, true, [], is_ok};
ghost use Rattle.wf_args.specs.Lines.{words_view, options_at};

use crate::command::Command;

/// A command line that was read: a command and its options. It borrows the words.
#[derive(Debug, Clone, Copy)]
pub struct Line<'w> {
    pub(crate) command: Command,
    pub(crate) options: &'w [String],
    ghost reads: { is_ok (options_at command 1 [] (words_view options.now)) ≡ true },
}
