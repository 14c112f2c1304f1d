// The fields of a message as a map.
ghost use Rattle.std.specs.Prelude.{◌≡◌, IfOk, OnOk, option_map, true};
ghost use Rattle.wf_value.specs.HttpText.{header_map, joined_value, proper_name, with_field, with_value_at};
ghost use Rattle.wf_value.specs.Data.{pairs_of};
ghost use Rattle.wf_value.specs.Plain.{plain};

use crate::names::proper_name;
use std::alloc::Global;
use wf_value::{Bytes, Map, OutOfMemory, Text, Value};

/// The values by the names. Those of equal names are joined, in order.
pub(crate) fn header_map(alloc: Global, fields: &[(Bytes, Bytes)]) -> Result<Map, OutOfMemory>
    ensures { IfOk result (λ m. pairs_of m ≡ header_map fields.now) }
{
    let mut headers = Map::new(alloc)?;
    for field in fields {
        add_field(alloc, &mut headers, field)?;
    }
    Ok(headers)
}

/// A field whose name or value isn't UTF-8 is left out.
fn add_field(alloc: Global, headers: &mut Map, field: &(Bytes, Bytes)) -> Result<(), OutOfMemory>
    ensures { OnOk result (pairs_of headers.new ≡ with_field (pairs_of headers.old) field.now) }
{
    let Ok(name) = str::from_utf8(field.0.as_slice()) else {
        return Ok(());
    };
    let Ok(value) = str::from_utf8(field.1.as_slice()) else {
        return Ok(());
    };
    put_field(alloc, headers, name, value)
}

/// Puts a value at the proper form of a name, behind those that are there.
fn put_field(alloc: Global, headers: &mut Map, name: &str, value: &str) -> Result<(), OutOfMemory>
    ensures { OnOk result (pairs_of headers.new
        ≡ with_value_at (proper_name true name.now) value.now (pairs_of headers.old)) }
{
    let name = proper_name(alloc, name)?;
    let value = joined_value(alloc, headers.get(name.as_str()), value)?;
    headers.insert(name, value)?;
    Ok(())
}

/// A value behind that of the fields of the same name before it.
fn joined_value(alloc: Global, before: Option<&Value>, value: &str) -> Result<Value, OutOfMemory>
    ensures { IfOk result (λ v. plain v
        ≡ joined_value (option_map (λ b. plain b.now) before.entry) value.now) }
{
    let Some(Value::Text(before)) = before else {
        return Ok(Value::Text(Text::new(alloc, value)?));
    };
    let mut joined = String::from_str(alloc, before.as_str())?;
    joined.push_str(", ")?;
    joined.push_str(value)?;
    Ok(Value::Text(Text::new(alloc, joined.as_str())?))
}
