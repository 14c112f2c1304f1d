// The entry for which the arguments of a log ask.
ghost use Rattle.std.specs.Prelude.{◌≡◌, ◌+◌, Ok, codes, nat_le, option_map, unwrap_or};
ghost use Rattle.wf_eval.specs.Answers.{Answers};
ghost use Rattle.wf_model.specs.Calls as calls;
ghost use Rattle.wf_model.specs.Config.{log_limit};
ghost use Rattle.wf_sys_ask.specs.Logs.{entry_within, logged_view, severity_told, text_told, within_log};
ghost use Rattle.wf_value.specs.Data.{null, pairs_of, size};
ghost use Rattle.wf_value.specs.Events.{severity_named};
ghost use Rattle.wf_value.specs.HttpUrl.{first_of_two};
ghost use Rattle.wf_value.specs.Pairs.{get};
ghost use Rattle.wf_value.specs.Plain.{plain};

use crate::argument::argument;
use std::alloc::Global;
use wf_eval::copied;
use wf_value::{Map, Raise, Severity, Tag, Value};

/// What all logged values together may come to.
const LOG_LIMIT: u64 = 16_777_216;

/// A value that a step logs, and how grave it is.
#[derive(Drop)]
pub struct Logged {
    pub severity: Severity,
    pub value: Value,
}

/// The severity of a name, in upper case.
fn severity_named(name: &str) -> Option<Severity>
    ensures { result ≡ severity_named name.now }
{
    match name {
        "DEFAULT" => Some(Severity::Default),
        "DEBUG" => Some(Severity::Debug),
        "INFO" => Some(Severity::Info),
        "NOTICE" => Some(Severity::Notice),
        "WARNING" => Some(Severity::Warning),
        "ERROR" => Some(Severity::Error),
        "CRITICAL" => Some(Severity::Critical),
        "ALERT" => Some(Severity::Alert),
        "EMERGENCY" => Some(Severity::Emergency),
        _ => None,
    }
}

/// The severity that the argument of this name says: `DEFAULT` where it is absent.
fn severity_of(severity: Option<&Value>) -> Result<Severity, Raise>
    ensures { Answers (λ s. s) result
        (severity_told (option_map (λ v. plain v.now) severity.entry)) }
{
    match severity {
        None => Ok(Severity::Default),
        Some(Value::Text(name)) => match severity_named(name.as_str()) {
            Some(severity) => Ok(severity),
            None => Err(Raise::Error(Tag::ValueError)),
        },
        Some(_) => Err(Raise::Error(Tag::TypeError)),
    }
}

/// The argument `data`, or else `json`.
fn data_in(args: &Map) -> Option<&Value>
    ensures { option_map (λ v. plain v.now) result
        ≡ first_of_two (get (codes "data") (pairs_of args.now))
        (get (codes "json") (pairs_of args.now)) }
{
    match argument(args, "data") {
        Some(data) => Some(data),
        None => argument(args, "json"),
    }
}

/// An equal value, or null where there is none.
fn copied_or_null(alloc: Global, value: Option<&Value>) -> Result<Value, Raise>
    ensures { Answers plain result
        (Ok (unwrap_or (option_map (λ v. plain v.now) value.entry) null)) }
{
    match value {
        Some(value) => copied(alloc, value),
        None => Ok(Value::Null),
    }
}

/// The value of `data` or `json`, which may be any.
fn any_logged(alloc: Global, args: &Map) -> Result<Value, Raise>
    ensures { Answers plain result (Ok (calls.logged_any (pairs_of args.now))) }
{
    copied_or_null(alloc, data_in(args))
}

/// A value that must be a text.
fn text_of(value: &Value) -> Result<Value, Raise>
    ensures { Answers plain result (text_told (plain value.now)) }
{
    match value {
        Value::Text(text) => Ok(Value::Text(text.copy()?)),
        _ => Err(Raise::Error(Tag::TypeError)),
    }
}

/// The value of `text`, which must be a text, or else that of `data` or `json`.
fn logged_value(alloc: Global, args: &Map) -> Result<Value, Raise>
    ensures { Answers plain result (calls.logged_value (pairs_of args.now)) }
{
    match argument(args, "text") {
        Some(value) => text_of(value),
        None => any_logged(alloc, args),
    }
}

/// Whether all that is logged keeps its limit with a value more, where so much was logged before.
fn is_within(logged: u64, value: &Value) -> bool
    ensures { result ≡ nat_le (logged + size (plain value.now)) log_limit }
{
    logged.saturating_add(value.size()) <= LOG_LIMIT
}

/// The entry, where it doesn't pass that limit.
fn within_log(logged: u64, entry: Logged) -> Result<Logged, Raise>
    ensures { Answers logged_view result (within_log logged (logged_view entry)) }
{
    if is_within(logged, &entry.value) {
        Ok(entry)
    } else {
        Err(Raise::Error(Tag::ResourceLimitError))
    }
}

/// The entry for which the arguments of `sys.log` ask, where all values that were logged before come to `logged`. An error in them comes
/// first, and then a `ResourceLimitError` where the entry would lift the sum past 16,777,216.
pub fn entry_of(alloc: Global, args: &Map, logged: u64) -> Result<Logged, Raise>
    ensures { Answers logged_view result (entry_within logged (pairs_of args.now)) }
{
    let value = logged_value(alloc, args)?;
    let severity = severity_of(argument(args, "severity"))?;
    within_log(logged, Logged { severity, value })
}
