// A line of a case program.
use crate::CaseFault;
use std::alloc::Global;
use wf_value::{Value, from_json};

/// A case: the table that it stands in, and its items.
#[derive(Drop)]
pub struct Case<'a> {
    pub table: &'a str,
    list: Value,
}

impl Case<'_> {
    /// The item of that number, from 0 on.
    pub fn item(&self, i: usize) -> Result<&Value, CaseFault> {
        match self.items().get(i) {
            Some(item) => Ok(item),
            None => Err(CaseFault::NoCase),
        }
    }

    /// All items.
    pub fn items(&self) -> &[Value] {
        match &self.list {
            Value::List(list) => list.items(),
            _ => &[],
        }
    }

    /// The text that stands as the item of that number.
    pub fn text(&self, i: usize) -> Result<&str, CaseFault> {
        match self.item(i)? {
            Value::Text(text) => Ok(text.as_str()),
            _ => Err(CaseFault::NoCase),
        }
    }

    /// The whole number that stands as the item of that number.
    pub fn number(&self, i: usize) -> Result<i64, CaseFault> {
        match self.item(i)? {
            Value::Int(number) => Ok(*number),
            _ => Err(CaseFault::NoCase),
        }
    }
}

/// The case that a line is.
pub fn case_of(alloc: Global, line: &str) -> Result<Case<'_>, CaseFault> {
    let Some((table, rest)) = line.split_once(' ') else {
        return Err(CaseFault::NoCase);
    };
    let list = from_json(alloc, rest.as_bytes())?;
    if !matches!(&list, Value::List(_)) {
        return Err(CaseFault::NoCase);
    }
    Ok(Case { table, list })
}
