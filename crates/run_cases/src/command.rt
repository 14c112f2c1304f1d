// Commands: the top call over a source and a host in memory.
use crate::ended::Ended;
use crate::plan::{Outside, push};
use std::alloc::Global;
use wf_cases::{CaseFault, bytes_of};
use wf_cli::run_line;
use wf_host::{MemHost, MemSource};
use wf_value::Value;

/// What a command is given.
#[derive(Drop)]
pub struct Command {
    words: Vec<String>,
    source: Vec<u8>,
    pub outside: Outside,
}

impl Command {
    /// A command of words, a source and a plan. A source is a text, or a list of its bytes piece by piece in hex.
    pub fn new(
        alloc: Global,
        words: &Value,
        source: &Value,
        plan: &Value,
    ) -> Result<Command, CaseFault> {
        let outside = Outside::new(alloc, plan)?;
        let words = words_in(alloc, words)?;
        let source = source_in(alloc, source)?;
        Ok(Command {
            words,
            source,
            outside,
        })
    }

    /// Makes the call.
    pub fn run(self, alloc: Global) -> Result<Ended, CaseFault> {
        let Command {
            words,
            source,
            outside,
        } = self;
        let Outside {
            plan,
            failing_reads,
        } = outside;
        let host = MemHost::new(alloc, plan)?;
        ended(alloc, &words, &source, &failing_reads, host)
    }
}

/// What a command comes to on a host.
fn ended(
    alloc: Global,
    words: &[String],
    source: &[u8],
    failing_reads: &[u64],
    host: MemHost,
) -> Result<Ended, CaseFault> {
    let mut host = host;
    let before = Vec::from_slice(alloc, host.image())?;
    let status = status_of(alloc, words, source, failing_reads, &mut host)?;
    Ended::new(alloc, status, &before, host)
}

/// The number of a command's status.
fn status_of(
    alloc: Global,
    words: &[String],
    source: &[u8],
    failing_reads: &[u64],
    host: &mut MemHost,
) -> Result<u8, CaseFault> {
    let mut source = MemSource::new(alloc, source, failing_reads)?;
    Ok(run_line(alloc, words, &mut source, host).code())
}

fn words_in(alloc: Global, words: &Value) -> Result<Vec<String>, CaseFault> {
    match words {
        Value::List(words) => words_of(alloc, words.items()),
        _ => Err(CaseFault::NoCase),
    }
}

fn source_in(alloc: Global, source: &Value) -> Result<Vec<u8>, CaseFault> {
    match source {
        Value::Text(text) => Ok(Vec::from_slice(alloc, text.as_str().as_bytes())?),
        _ => bytes_of(alloc, source),
    }
}

/// The words that some values are.
pub fn words_of(alloc: Global, items: &[Value]) -> Result<Vec<String>, CaseFault> {
    let mut words = Vec::new(alloc);
    for item in items {
        match item {
            Value::Text(word) => push(&mut words, String::from_str(alloc, word.as_str())?)?,
            _ => return Err(CaseFault::NoCase),
        }
    }
    Ok(words)
}
