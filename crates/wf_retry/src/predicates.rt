// The predefined predicates of retry policies.
ghost use Rattle.std.specs.List.{list_any};
ghost use Rattle.std.specs.Prelude.{◌≡◌, codes, nat_eq};
ghost use Rattle.wf_retry.specs.Passing.{may_pass};
ghost use Rattle.wf_value.specs.Policies.{default_says, has_code, has_tag, is_text};
ghost use Rattle.wf_value.specs.Maps.{value_at};
ghost use Rattle.wf_value.specs.Plain.{plain};

use wf_value::{DefaultKind, Map, Value};

/// Whether a predefined predicate retries an error.
///
/// `Idempotent` retries a map whose `code` is 429, 502, 503 or 504, or whose list of `tags` holds `ConnectionError` or
/// `TimeoutError`; `NonIdempotent` a map whose `code` is 429 or 503. Neither retries an error that is no map.
pub fn default_says(kind: DefaultKind, error: &Value) -> bool
    ensures { result ≡ default_says kind (plain error.now) }
{
    let Value::Map(error) = error else {
        return false;
    };
    match kind {
        DefaultKind::Idempotent => may_pass(error),
        DefaultKind::NonIdempotent => has_code(error, &[429, 503]),
    }
}

/// Whether an error may pass by itself.
fn may_pass(error: &Map) -> bool
    ensures { result ≡ may_pass error.now }
{
    has_code(error, &[429, 502, 503, 504])
        || has_tag(error, "ConnectionError")
        || has_tag(error, "TimeoutError")
}

/// Whether the code of an error is one of these.
fn has_code(error: &Map, expected: &[u64]) -> bool
    ensures { result ≡ has_code expected.now (value_at (codes "code") error.now) }
{
    let Some(Value::Int(code)) = error.get("code") else {
        return false;
    };
    match u64::try_from(*code) {
        Ok(code) => is_among(code, expected),
        Err(_) => false,
    }
}

fn is_among(code: u64, expected: &[u64]) -> bool
    ensures { result ≡ list_any (nat_eq code) expected.now }
{
    expected.iter().any(|one| code == *one)
}

/// Whether the tags of an error are a list that holds this one.
fn has_tag(error: &Map, tag: &str) -> bool
    ensures { result ≡ has_tag tag.now (value_at (codes "tags") error.now) }
{
    match error.get("tags") {
        Some(Value::List(tags)) => holds_text(tags.items(), tag),
        _ => false,
    }
}

fn holds_text(items: &[Value], expected: &str) -> bool
    ensures { result ≡ list_any (λ v. is_text expected.now (plain v)) items.now }
{
    items.iter().any(|item| is_text(item, expected))
}

fn is_text(value: &Value, expected: &str) -> bool
    ensures { result ≡ is_text expected.now (plain value.now) }
{
    match value {
        Value::Text(text) => text.as_str() == expected,
        _ => false,
    }
}
