// Series of commands on one journal.
//
// A case of the tables `series` and `calls` is a list of commands `[words, source, plan]` or `[words, source, plan, how]`. The first one has the journal of
// its plan, each later one that which the one before left. `how` is a map with those of these keys that are wanted:
//
// - `stops`: the command is made so many times, stopped after 0 writes and syncs, after 1 and so on.
// - `failing_calls`: it is made so many times, where the first call of the host fails, the second and so on.
// - `left`: `synced` where it leaves what was synced alone.
// - `after`: it is made only where the one before had this status.
//
// The answer has a part for each way through the commands: what each of them came to as `commands` tells it, with commas between them. In the
// table `calls` the deeds stand behind that in brackets (see `deeds`). There is ` | ` between the parts. Where several in a row are the same, the first stands, with a count behind it as ` x20`.
use crate::command::Command;
use crate::ended::Ended;
use crate::plan::{number_of, push};
use std::alloc::Global;
use wf_cases::CaseFault;
use wf_value::{Map, Value};

/// One command of a series.
#[derive(Clone, Copy)]
struct Step<'a> {
    words: &'a Value,
    source: &'a Value,
    plan: &'a Value,
    how: Option<&'a Map>,
    /// Whether the deeds are told.
    has_deeds: bool,
}

/// What was done so far.
#[derive(Drop)]
struct Way {
    told: String,
    /// The last command's status, where there was one.
    status: Option<u8>,
    /// The journal that it left.
    journal: Vec<u8>,
}

/// What a series comes to, and whether its deeds are told.
pub fn answer(alloc: Global, commands: &[Value], has_deeds: bool) -> Result<String, CaseFault> {
    let mut ways = Vec::new(alloc);
    let first = Way {
        told: String::new(alloc),
        status: None,
        journal: Vec::new(alloc),
    };
    push(&mut ways, first)?;
    for command in commands {
        ways = Step::new(command, has_deeds)?.all_on(alloc, ways)?;
    }
    joined(alloc, ways.as_slice())
}

impl<'a> Step<'a> {
    fn new(command: &'a Value, has_deeds: bool) -> Result<Step<'a>, CaseFault> {
        let Value::List(command) = command else {
            return Err(CaseFault::NoCase);
        };
        let (words, source, plan, how) = match command.items() {
            [words, source, plan] => (words, source, plan, None),
            [words, source, plan, Value::Map(how)] => (words, source, plan, Some(how)),
            _ => return Err(CaseFault::NoCase),
        };
        Ok(Step {
            words,
            source,
            plan,
            how,
            has_deeds,
        })
    }

    fn value(&self, key: &str) -> Option<&Value> {
        self.how?.get(key)
    }

    fn number(&self, key: &str) -> Result<Option<u64>, CaseFault> {
        match self.value(key) {
            Some(value) => Ok(Some(number_of(value)?)),
            None => Ok(None),
        }
    }

    /// All ways on which these ways go on.
    fn all_on(&self, alloc: Global, ways: Vec<Way>) -> Result<Vec<Way>, CaseFault> {
        let mut further = Vec::new(alloc);
        for way in ways {
            self.go_on(alloc, way, &mut further)?;
        }
        Ok(further)
    }

    /// Adds each way on which a way goes on.
    fn go_on(&self, alloc: Global, way: Way, further: &mut Vec<Way>) -> Result<(), CaseFault> {
        if self.is_left_out(&way)? {
            return push(further, way);
        }
        self.add_all(alloc, &way, further)
    }

    /// Whether it isn't made behind a way.
    fn is_left_out(&self, way: &Way) -> Result<bool, CaseFault> {
        match (self.number("after")?, way.status) {
            (Some(after), Some(status)) => Ok(after != u64::from(status)),
            _ => Ok(false),
        }
    }

    fn add_all(&self, alloc: Global, way: &Way, further: &mut Vec<Way>) -> Result<(), CaseFault> {
        let stops = self.number("stops")?;
        let calls = self.number("failing_calls")?;
        for number in 0..stops.or(calls).unwrap_or(1) {
            let ended = self.made(alloc, way, stops.is_some(), calls.is_some(), number)?;
            push(further, self.behind(alloc, way, ended)?)?;
        }
        Ok(())
    }

    /// What the command comes to behind a way, where it is stopped after so many writes and syncs, or the call of the next number fails.
    fn made(
        &self,
        alloc: Global,
        way: &Way,
        is_stopped: bool,
        has_failing_call: bool,
        number: u64,
    ) -> Result<Ended, CaseFault> {
        let mut command = Command::new(alloc, self.words, self.source, self.plan)?;
        let plan = &mut command.outside.plan;
        if is_stopped {
            plan.stop = Some(number);
        }
        if has_failing_call {
            push(&mut plan.fail, number.saturating_add(1))?;
        }
        if way.status.is_some() {
            plan.image = Vec::from_slice(alloc, way.journal.as_slice())?;
        }
        command.run(alloc)
    }

    /// How it is told what the command came to.
    fn line_of(&self, alloc: Global, ended: &Ended) -> Result<String, CaseFault> {
        if self.has_deeds {
            ended.line_with_deeds(alloc)
        } else {
            ended.full_line(alloc)
        }
    }

    /// The way with a further command, which ended so.
    fn behind(&self, alloc: Global, way: &Way, ended: Ended) -> Result<Way, CaseFault> {
        let line = self.line_of(alloc, &ended)?;
        let told = told_behind(alloc, way, line)?;
        let status = Some(ended.status);
        let journal = match self.value("left") {
            Some(_) => ended.synced,
            None => ended.journal,
        };
        Ok(Way {
            told,
            status,
            journal,
        })
    }
}

/// What was told of a way, and a line behind it.
fn told_behind(alloc: Global, way: &Way, line: String) -> Result<String, CaseFault> {
    match way.status {
        Some(_) => Ok(format!(in alloc; "{}, {}", way.told.as_str(), line.as_str())?),
        None => Ok(line),
    }
}

/// The parts, where equal ones in a row stand once.
fn joined(alloc: Global, ways: &[Way]) -> Result<String, CaseFault> {
    let mut text = String::new(alloc);
    let mut count = 0u64;
    for i in 0..ways.len() {
        count = count.saturating_add(1);
        let told = ways[i].told.as_str();
        if let Some(next) = ways.get(i + 1)
            && next.told.as_str() == told
        {
            continue;
        }
        if !text.is_empty() {
            text.push_str(" | ")?;
        }
        text.push_str(told)?;
        if count > 1 {
            let times = format!(in alloc; " x{count}")?;
            text.push_str(times.as_str())?;
        }
        count = 0;
    }
    Ok(text)
}
