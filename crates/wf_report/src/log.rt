// What an execution has logged.
ghost use Rattle.std.specs.Prelude.{◌≡◌, ◌≤◌, ◌++◌, IfOk, OnOk, option_copied, string_bytes};
ghost use Rattle.wf_machine.specs.Log.{entry_by};
ghost use Rattle.wf_machine.specs.Seen.{state_of};
ghost use Rattle.wf_report.specs.Texts.{is_wanted, logged, told_of};
ghost use Rattle.wf_value.specs.Events.{severity_name};
ghost use Rattle.wf_value.specs.Data.{depth};
ghost use Rattle.wf_value.specs.Json.{json_text};
ghost use Rattle.wf_value.specs.Plain.{plain};

use std::alloc::Global;
use wf_machine::Machine;
use wf_value::{OutOfMemory, Severity, Value, to_json};

/// The name of a severity.
fn severity_name(severity: Severity) -> &'static str
    ensures { result.now ≡ severity_name severity }
{
    match severity {
        Severity::Default => "DEFAULT",
        Severity::Debug => "DEBUG",
        Severity::Info => "INFO",
        Severity::Notice => "NOTICE",
        Severity::Warning => "WARNING",
        Severity::Error => "ERROR",
        Severity::Critical => "CRITICAL",
        Severity::Alert => "ALERT",
        Severity::Emergency => "EMERGENCY",
    }
}

/// Whether an entry with this JSON is wanted: one that holds the text, if there is one.
fn is_wanted(grep: Option<&str>, json: &str) -> bool
    ensures { result ≡ is_wanted (option_copied grep.entry) json.now }
{
    match grep {
        None => true,
        Some(text) => json.contains(text),
    }
}

/// A value as JSON.
fn json_of(alloc: Global, value: &Value) -> Result<String, OutOfMemory>
    requires { depth (plain value.now) ≤ 100 }
    ensures { IfOk result (λ json. string_bytes json ≡ json_text (plain value.now)) }
{
    let json = to_json(alloc, value)?;
    // JSON is UTF-8.
    match String::from_utf8(json) {
        Ok(json) => Ok(json),
        Err(_) => Err(OutOfMemory),
    }
}

/// Adds the line of an entry, if it is wanted.
fn add_line(
    alloc: Global,
    item: (u64, Severity, &Value),
    grep: Option<&str>,
    text: &mut String,
) -> Result<(), OutOfMemory>
    requires { depth (plain item.2.now) ≤ 100 }
    ensures { OnOk result (string_bytes text.new ≡ string_bytes text.old
        ++ told_of (option_copied grep.entry)
        (entry_by item.entry.0 item.entry.1 (plain item.entry.2.now))) }
{
    let (reading, severity, value) = item;
    let json = json_of(alloc, value)?;
    if !is_wanted(grep, json.as_str()) {
        return Ok(());
    }
    let name = severity_name(severity);
    let line = format!(in alloc; "{reading} {name} {}\n", json.as_str())?;
    text.push_str(line.as_str())?;
    Ok(())
}

/// A line for each logged value, in their order: the last reading when it was logged, its severity, and the value as JSON, with a blank
/// between them. With a text only the values whose JSON holds it.
#[tactic(auto, unfolding(crate::specs::Texts::logged))]
pub fn log_lines(
    alloc: Global,
    machine: &Machine,
    grep: Option<&str>,
) -> Result<String, OutOfMemory>
    ensures { IfOk result (λ text. string_bytes text
        ≡ logged (option_copied grep.entry) (state_of machine.now).config.log) }
{
    let mut text = String::new(alloc);
    let mut index = 0;
    while let Some(entry) = machine.log(index) {
        add_line(alloc, entry, grep, &mut text)?;
        let Some(next) = index.checked_add(1) else {
            return Err(OutOfMemory);
        };
        index = next;
    }
    Ok(text)
}
