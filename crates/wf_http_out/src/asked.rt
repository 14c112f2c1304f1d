// What a call asks for.
use wf_callbacks::Method;
use wf_value::{Pairs, Text, Value};

/// What a call asks for. Whole numbers and truth values stand in the pairs as their texts.
#[derive(Drop)]
pub struct Asked {
    /// The method.
    pub method: Method,
    /// The URL as it was written. `address` reads it; the request has what its goal holds of it.
    pub url: Text,
    /// The fields that the caller gives, in the order of their names' bytes.
    pub fields: Pairs,
    /// What the caller adds to the query, in the order of the keys' bytes.
    pub query: Pairs,
    /// The body. `Null` is none, as no value is.
    pub body: Option<Value>,
    /// How long an answer is waited for, in seconds.
    pub timeout: u64,
}
