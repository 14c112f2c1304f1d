// The errors that the language raises.
use std::alloc::Global;
use wf_cases::{CaseFault, json_of};
use wf_value::{Tag, Text, Value, error_map};

const TAGS: [Tag; 13] = [
    Tag::ConnectionError,
    Tag::HttpError,
    Tag::IndexError,
    Tag::KeyError,
    Tag::ParallelNestingError,
    Tag::RecursionError,
    Tag::ResourceLimitError,
    Tag::ResponseTypeError,
    Tag::TimeoutError,
    Tag::TypeError,
    Tag::UnhandledBranchError,
    Tag::ValueError,
    Tag::ZeroDivisionError,
];

/// The tag of a name.
fn tag_of(name: &str) -> Result<Tag, CaseFault> {
    for tag in TAGS {
        if tag.name() == name {
            return Ok(tag);
        }
    }
    Err(CaseFault::NoCase)
}

/// The map that a program sees of an error.
pub(crate) fn map_of(alloc: Global, name: &str) -> Result<String, CaseFault> {
    match tag_of(name)? {
        Tag::HttpError | Tag::UnhandledBranchError => Err(CaseFault::NoCase),
        tag => json_of(alloc, &error_map(alloc, tag)?),
    }
}

/// The message of an error, as a JSON text.
pub(crate) fn message(alloc: Global, name: &str) -> Result<String, CaseFault> {
    let message = Text::new(alloc, tag_of(name)?.message())?;
    json_of(alloc, &Value::Text(message))
}
