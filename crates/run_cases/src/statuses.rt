// Statuses.
//
// A case of the table `statuses` is the name of a status and what it has: the number of `BadLine` and of `NotAHistory`; of `Refused` a kind,
// and then nothing for the source, a number for a line, or a path as a list, where a number behind it is an offset. The answer is the number of
// the status and, where it has one, its text as a JSON text.
use crate::plan::number_of;
use std::alloc::Global;
use wf_cases::{Case, CaseFault, quoted};
use wf_status::{Place, Refusal, RefusalKind, Status};
use wf_value::{Path, PathPart, Text, Value};

/// The number of a status, and its text.
pub fn answer(alloc: Global, case: &Case<'_>) -> Result<String, CaseFault> {
    let (code, text) = code_and_text(alloc, case)?;
    match text {
        Some(text) => told(alloc, code, text.as_str()),
        None => Ok(format!(in alloc; "{code}")?),
    }
}

fn code_and_text(alloc: Global, case: &Case<'_>) -> Result<(u8, Option<Text>), CaseFault> {
    let status = status_of(alloc, case)?;
    let text = status.text(alloc)?;
    Ok((status.code(), text))
}

fn told(alloc: Global, code: u8, text: &str) -> Result<String, CaseFault> {
    let json = quoted(alloc, text)?;
    Ok(format!(in alloc; "{code} {}", json.as_str())?)
}

fn status_of(alloc: Global, case: &Case<'_>) -> Result<Status, CaseFault> {
    match case.text(0)? {
        "BadLine" => Ok(Status::BadLine(small(case, 1)?)),
        "NotAHistory" => Ok(Status::NotAHistory(small(case, 1)?)),
        "Refused" => {
            let kind = kind_of(case.text(1)?)?;
            let place = place_of(alloc, case)?;
            Ok(Status::Refused(Refusal { kind, place }))
        }
        name => end_named(name),
    }
}

/// A status that has nothing: of a command that came to an end, or that stopped before.
fn end_named(name: &str) -> Result<Status, CaseFault> {
    match name {
        "Done" => Ok(Status::Done),
        "Raised" => Ok(Status::Raised),
        "Suspended" => Ok(Status::Suspended),
        "BadArgument" => Ok(Status::BadArgument),
        "AlreadyStarted" => Ok(Status::AlreadyStarted),
        "NotStarted" => Ok(Status::NotStarted),
        name => fault_named(name),
    }
}

/// A status that has nothing: that of a fault.
fn fault_named(name: &str) -> Result<Status, CaseFault> {
    match name {
        "ReadFault" => Ok(Status::ReadFault),
        "PrintFault" => Ok(Status::PrintFault),
        "DiskFault" => Ok(Status::DiskFault),
        "PollFault" => Ok(Status::PollFault),
        "NotAJournal" => Ok(Status::NotAJournal),
        "OutOfMemory" => Ok(Status::OutOfMemory),
        _ => Err(CaseFault::NoCase),
    }
}

fn kind_of(name: &str) -> Result<RefusalKind, CaseFault> {
    let kinds = [
        RefusalKind::NotJson,
        RefusalKind::DoubleKey,
        RefusalKind::UnknownStep,
        RefusalKind::Syntax,
    ];
    for kind in kinds {
        if kind.name() == name {
            return Ok(kind);
        }
    }
    Err(CaseFault::NoCase)
}

fn place_of(alloc: Global, case: &Case<'_>) -> Result<Place, CaseFault> {
    match case.items().get(2) {
        None => Ok(Place::Source),
        Some(Value::List(parts)) => {
            let path = path_of(alloc, parts.items())?;
            match case.items().get(3) {
                None => Ok(Place::Path(path)),
                Some(_) => Ok(Place::Within(path, small(case, 3)?)),
            }
        }
        Some(_) => Ok(Place::Line(small(case, 2)?)),
    }
}

fn path_of(alloc: Global, parts: &[Value]) -> Result<Path, CaseFault> {
    let mut path = Path::new(alloc)?;
    for part in parts {
        path.push(match part {
            Value::Text(key) => PathPart::Key(key.copy()?),
            _ => PathPart::Index(number_of(part)?),
        })?;
    }
    Ok(path)
}

/// The number that stands as an item.
fn small(case: &Case<'_>, i: usize) -> Result<u32, CaseFault> {
    match u32::try_from(number_of(case.item(i)?)?) {
        Ok(number) => Ok(number),
        Err(_) => Err(CaseFault::NoCase),
    }
}
