// Reading a command line.
ghost use Rattle.std.specs.Prelude.{◌≡◌, ◌↔◌, ℕ, suc, [], Ok, Err, min, IsOkAnd, IsErrOf, MatchOption};
ghost use Rattle.wf_args.specs.Lines.{PlainLine, count, is_complete, line_of, next_name, options_at, options_in, words_view};
ghost use Rattle.wf_args.specs.Plain.{plain_line};

use crate::command::Command;
use crate::line::Line;
use crate::option::OptionName;
use std::alloc::Global;

/// Why some words give no line.
#[derive(Debug, Clone, Copy, PartialEq, Eq)]
pub enum LineFault {
    /// The words are no command line. The number is that of the least word, from 0 on, with which
    /// they begin none, or the count of the words where only more of them are missing.
    BadLine(u32),
    /// There is no memory.
    OutOfMemory,
}

/// The line that some words are. `words` are those behind the program's name: a command, and its
/// options in any order, each as two words. `BadLine` comes exactly where the words are no line.
/// The line borrows its words, so nothing is allocated, and want of memory is never told.
#[tactic(auto, unfolding(crate::specs::Lines::line_of))]
pub fn read_line<'w>(_alloc: Global, words: &'w [String]) -> Result<Line<'w>, LineFault>
    ensures line { (l : PlainLine) → (line_of (words_view words.now) ≡ Ok l)
        ↔ IsOkAnd result (λ r. plain_line r ≡ l) }
    ensures bad_line { (n : ℕ) → (line_of (words_view words.now) ≡ Err n)
        ↔ IsErrOf result (LineFault.BadLine n) }
    ensures memory { ¬ IsErrOf result LineFault.OutOfMemory }
{
    let [first, options @ ..] = words else {
        return Err(LineFault::BadLine(0));
    };
    let Some(command) = Command::named(first.as_str()) else {
        return Err(LineFault::BadLine(0));
    };
    match bad_word(command, options) {
        Some(number) => Err(LineFault::BadLine(number)),
        None => Ok(Line { command, options }),
    }
}

/// The number of the first bad word among the options behind a command. It is a small one, since
/// each option stands a few times at most, so 32 bits can tell it.
fn bad_word(command: Command, options: &[String]) -> Option<u32>
    ensures { let words = words_view options.now in MatchOption result
        (options_at command 1 [] words
        ≡ Ok (record { command = command; options = options_in words }))
        (λ n. options_at command 1 [] words ≡ Err n) }
{
    let mut at = 0;
    while at < options.len() {
        let Some(name) = next_name(command, &options[..at], options[at].as_str()) else {
            return Some(number(at));
        };
        let Some(word) = options.get(at + 1) else {
            return Some(number(options.len()));
        };
        if !name.fits(word.as_str()) {
            return Some(number(at + 1));
        }
        at += 2;
    }
    if is_complete(command, options) {
        None
    } else {
        Some(number(options.len()))
    }
}

/// Whether none of the options is missing that the command can't do without.
fn is_complete(command: Command, options: &[String]) -> bool
    ensures { result ≡ is_complete command (options_in (words_view options.now)) }
{
    match command {
        Command::At => 0 < count_of(OptionName::Turn, options),
        Command::Check
        | Command::Format
        | Command::Run
        | Command::Resume
        | Command::Show
        | Command::Log
        | Command::Help
        | Command::Version => true,
    }
}

/// The number, counted from the command, of the word with this index behind it.
fn number(index: usize) -> u32
    ensures { result ≡ min (suc index) 4294967295 }
{
    u32::try_from(index).unwrap_or(u32::MAX).saturating_add(1)
}

/// The option that a word names, where it may stand behind these.
fn next_name(command: Command, options: &[String], word: &str) -> Option<OptionName>
    ensures { result ≡ next_name command (options_in (words_view options.now)) word.now }
{
    let name = OptionName::named(word)?;
    if command.takes(name) && count_of(name, options) < name.most() {
        Some(name)
    } else {
        None
    }
}

/// How often an option stands among these.
fn count_of(name: OptionName, options: &[String]) -> usize
    ensures { result ≡ count name (options_in (words_view options.now)) }
{
    let mut count = 0;
    let mut rest = options;
    while rest.len() > 1 {
        if rest[0].as_str() == name.word() {
            count += 1;
        }
        rest = rest.split_at(2).1;
    }
    count
}
