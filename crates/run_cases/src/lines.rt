// Command lines.
//
// The tables `lines` and `options` have words as their cases. A line's answer is its command and then each option that it has, as its name
// and its word as a JSON text; a route as its host and name as JSON texts, and its port; a pair of the environment as its key and its value
// as JSON texts; the waits and the turn as their numbers, where these aren't those without the options. Or it is `BadLine` with the number of the word. The answer to `options` is what the look-ups find, of the journal,
// the source and the address for callbacks: a JSON text, or `none`.
use crate::command::words_of;
use std::alloc::Global;
use wf_args::{Line, LineFault, OptionName, journal_of, listen_of, read_line, source_of};
use wf_cases::{CaseFault, quoted};
use wf_value::Value;

/// The most routes of a line, or pairs of its environment, and one more.
const MOST_PARTS: usize = 21;

/// How often a command may wait without the option.
const DEFAULT_WAITS: u32 = 1_000_000;

/// What line the words are.
pub fn line(alloc: Global, items: &[Value]) -> Result<String, CaseFault> {
    let words = words_of(alloc, items)?;
    match read_line(alloc, words.as_slice()) {
        Ok(line) => told(alloc, line),
        Err(LineFault::BadLine(word)) => Ok(format!(in alloc; "BadLine {word}")?),
        Err(LineFault::OutOfMemory) => Err(CaseFault::OutOfMemory),
    }
}

fn told(alloc: Global, line: Line<'_>) -> Result<String, CaseFault> {
    let mut told = format!(in alloc; "{:?}", line.command())?;
    push_option(alloc, &mut told, OptionName::Source, line.source())?;
    push_option(alloc, &mut told, OptionName::Journal, line.journal())?;
    push_option(alloc, &mut told, OptionName::Args, line.args())?;
    push_option(alloc, &mut told, OptionName::Id, line.id())?;
    push_routes(alloc, &mut told, line)?;
    push_env(alloc, &mut told, line)?;
    push_number(&mut told, OptionName::Waits, line.waits(), DEFAULT_WAITS)?;
    push_number(&mut told, OptionName::Turn, line.turn(), 0)?;
    push_option(alloc, &mut told, OptionName::Grep, line.grep())?;
    Ok(told)
}

fn push_routes(alloc: Global, told: &mut String, line: Line<'_>) -> Result<(), CaseFault> {
    for index in 0..MOST_PARTS {
        if let Some(route) = line.route(index) {
            let host = quoted(alloc, route.host)?;
            let name = quoted(alloc, route.name)?;
            let port = route.port;
            write!(told, " --route {} {} {port}", host.as_str(), name.as_str())?;
        }
    }
    Ok(())
}

fn push_env(alloc: Global, told: &mut String, line: Line<'_>) -> Result<(), CaseFault> {
    for index in 0..MOST_PARTS {
        if let Some(pair) = line.env(index) {
            let key = quoted(alloc, pair.key)?;
            let value = quoted(alloc, pair.value)?;
            write!(told, " --env {} {}", key.as_str(), value.as_str())?;
        }
    }
    Ok(())
}

/// The number of an option, where it isn't the one that stands for none.
fn push_number(
    told: &mut String,
    name: OptionName,
    number: u32,
    absent: u32,
) -> Result<(), CaseFault> {
    if number != absent {
        write!(told, " {} {number}", name.word())?;
    }
    Ok(())
}

fn push_option(
    alloc: Global,
    told: &mut String,
    name: OptionName,
    word: Option<&str>,
) -> Result<(), CaseFault> {
    if let Some(word) = word {
        let json = quoted(alloc, word)?;
        write!(told, " {} {}", name.word(), json.as_str())?;
    }
    Ok(())
}

/// What the look-ups find in the words.
pub fn options(alloc: Global, items: &[Value]) -> Result<String, CaseFault> {
    let words = words_of(alloc, items)?;
    let words = words.as_slice();
    let mut line = String::new(alloc);
    push_found(alloc, &mut line, journal_of(words))?;
    line.push(' ')?;
    push_found(alloc, &mut line, source_of(words))?;
    line.push(' ')?;
    push_found(alloc, &mut line, listen_of(words))?;
    Ok(line)
}

fn push_found(alloc: Global, line: &mut String, word: Option<&str>) -> Result<(), CaseFault> {
    let found = found(alloc, word)?;
    Ok(line.push_str(found.as_str())?)
}

fn found(alloc: Global, word: Option<&str>) -> Result<String, CaseFault> {
    match word {
        Some(word) => quoted(alloc, word),
        None => Ok(String::from_str(alloc, "none")?),
    }
}
